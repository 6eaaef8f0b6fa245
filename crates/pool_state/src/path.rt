//! The place of a node in a tree of choices, for a kind of search.
ghost use Rattle.std.specs.Prelude.{◌≡◌, ◌<◌, ◌∷◌, ◌++◌, [], length, List, IfOk};
ghost use Rattle.std.specs.Cmp.{eq_by_cmp_equiv, partial_equiv_from_equiv, partial_order_from_agreeing_total};
ghost use Rattle.std.specs.Ordering.{as_partial_cmp, eq_by_cmp};
ghost use Rattle.std.proofs.Common.{refl};
ghost use Rattle.std.proofs.lemmas.Cmp.{lists_total};
ghost use Rattle.oz_search.specs.Paths.{path_cmp};
ghost use Rattle.pool_state.specs.Branching.{by_last, last_number, next_sibling};

use crate::SearchKind;
use oz_base::Copies;
use std::alloc::{AllocError, Global};
use std::cmp::Ordering;
use std::marker::Model;

/// The branches that lead from the root to a node. Contracts see their list.
#[derive(Drop)]
pub struct Path<K: SearchKind> {
    branches: Vec<K::Branch>,
}

impl<K: SearchKind> Model for Path<K> {
    ghost use Rattle.std.specs.Prelude.{List};

    ghost Value = { List K.Branch };

    ghost view = { λ p. p.branches.items };
}

// Lexicographic.
fn order<K: SearchKind>(path: &[K::Branch], other: &[K::Branch]) -> Ordering
    ensures { result ≡ path_cmp K.search path.now other.now }
{
    let mut at = 0;
    while at < path.len() && at < other.len() {
        let order = K::compare(path[at], other[at]);
        if !order.is_eq() {
            return order;
        }
        at += 1;
    }
    path.len().cmp(&other.len())
}

impl<K: SearchKind> PartialEq for Path<K> {
    ghost eq = { eq_by_cmp (path_cmp K.search) };

    ghost laws = { partial_equiv_from_equiv (eq_by_cmp_equiv (lists_total K.total)) };

    fn eq(&self, other: &Path<K>) -> bool {
        self.cmp(other).is_eq()
    }
}

impl<K: SearchKind> Eq for Path<K> {
    ghost laws = { eq_by_cmp_equiv (lists_total K.total) };
}

impl<K: SearchKind> PartialOrd for Path<K> {
    ghost partial_cmp = { as_partial_cmp (path_cmp K.search) };

    ghost laws = { partial_order_from_agreeing_total (path_cmp K.search) (lists_total K.total) (λ _ _. refl) (λ _ _. refl) };

    fn partial_cmp(&self, other: &Path<K>) -> Option<Ordering> {
        Some(self.cmp(other))
    }
}

/// From left to right in the tree: lexicographic, and a path stands before those that go on from it.
impl<K: SearchKind> Ord for Path<K> {
    ghost cmp = { path_cmp K.search };

    ghost total = { lists_total K.total };

    ghost matches_partial_cmp = { λ _ _. refl };

    ghost matches_eq = { λ _ _. refl };

    fn cmp(&self, other: &Path<K>) -> Ordering {
        order::<K>(self.branches.as_slice(), other.branches.as_slice())
    }
}

impl<K: SearchKind> Copies for Path<K> {
    fn copied(&self, alloc: Global) -> Result<Path<K>, AllocError> {
        Ok(Path {
            branches: Vec::from_slice(alloc, self.branches.as_slice())?,
        })
    }
}

impl<K: SearchKind> Path<K> {
    /// The path of the root, which has no branch. It takes no memory.
    pub fn root(alloc: Global) -> Path<K>
        ensures { result ≡ [] }
    {
        Path {
            branches: Vec::new(alloc),
        }
    }

    /// An equal path, in the memory that this one is in.
    pub fn copy(&self) -> Result<Path<K>, AllocError>
        ensures equal { IfOk result (λ copy. copy ≡ self.now) }
    {
        self.copied(*self.branches.allocator())
    }

    /// The path of the child by this branch.
    pub fn child(&self, branch: K::Branch) -> Result<Path<K>, AllocError>
        ensures child { IfOk result (λ child. child ≡ self.now ++ branch ∷ []) }
    {
        let room = self.branches.len().saturating_add(1);
        let mut branches = Vec::with_capacity(*self.branches.allocator(), room)?;
        branches.extend_from_slice(self.branches.as_slice())?;
        branches.push(branch)?;
        Ok(Path { branches })
    }

    /// The path of the child by the free branch to this alternative.
    pub fn extended(&self, alternative: u32) -> Result<Path<K>, AllocError>
        ensures child { IfOk result (λ child. child ≡ self.now ++ K.search.free alternative ∷ []) }
    {
        self.child(K::free(alternative))
    }

    /// How it stands to the path of these branches.
    pub fn compared(&self, path: &[K::Branch]) -> Ordering
        ensures { result ≡ path_cmp K.search self.now path.now }
    {
        order::<K>(self.branches.as_slice(), path)
    }

    /// How many branches it has: 0 at the root.
    pub fn len(&self) -> usize
        ensures { result ≡ length self.now }
    {
        self.branches.len()
    }

    /// The branches, from the root on.
    pub fn as_slice(&self) -> &[K::Branch]
        ensures { result.now ≡ self.now }
    {
        self.branches.as_slice()
    }

    /// The alternative of the last branch, or 0 at the root.
    #[tactic(auto, using(crate::proofs::PathEnds::last_get))]
    pub fn last(&self) -> u32
        ensures { result ≡ last_number K.search self.now }
    {
        match self.branches.as_slice().last() {
            Some(last) => K::number(*last),
            None => 0,
        }
    }

    /// The path by the free branch to the next alternative. The root's is the root.
    #[tactic(auto, using(crate::proofs::PathEnds::last_push, crate::proofs::PathEnds::by_push))]
    pub fn sibling(&self) -> Result<Path<K>, AllocError>
        requires { last_number K.search self.now < 4294967295 }
        ensures next { IfOk result (λ next. next ≡ next_sibling K.search self.now) }
    {
        let Path { mut branches } = self.copy()?;
        let Some(last) = branches.pop() else {
            return Ok(Path { branches });
        };
        branches.push(K::free(K::number(last) + 1))?;
        Ok(Path { branches })
    }

    /// The path to the same alternative as a claim takes it. It takes no memory.
    #[tactic(auto, using(crate::proofs::PathEnds::by_push))]
    pub fn bearing(self, so_far: K::SoFar) -> Path<K>
        ensures { result ≡ by_last (K.bears so_far) self }
    {
        let Path { mut branches } = self;
        let _room = branches.len();
        let Some(last) = branches.pop() else {
            return Path { branches };
        };
        let Ok(()) = branches.push(K::bears(so_far, last)) else {
            unreachable!()
        };
        Path { branches }
    }
}
