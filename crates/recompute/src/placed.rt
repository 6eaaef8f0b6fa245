//! Nodes at their paths, from which a search goes on.
ghost use Rattle.std.specs.Prelude.{◌≡◌, [], ◌∷◌, ◌++◌, List, IfOk, IfSome};
ghost use Rattle.recompute.specs.Origins.{nowhere, met_by};
ghost use Rattle.recompute.specs.Bests.{best_nowhere};
ghost use Rattle.recompute.specs.Places.{StandsAt, OpensAt};
ghost use Rattle.recompute.specs.Ways.{answer_of};

use crate::bounded::FrozenBest;
use crate::explorer::Solved;
use crate::frozen::Frozen;
use crate::source::Source;
use crate::waypoint::{Waypoint, opened, opened_last, solved};
use node_pool::{Path, SearchKind};
use oz_machine::Machine;
use oz_search::{Kind, Report};
use std::alloc::{AllocError, Global};
use std::marker::{Brand, Model, PhantomData};
use std::sync::Arc;

/// Where a search starts. A type says it: of a node that lies under a lock nothing is known but its type.
pub trait Start<T> {
    ghost start: { T };
}

impl Start<Frozen> for Brand {
    ghost start = { nowhere };
}

impl Start<FrozenBest> for Brand {
    ghost start = { best_nowhere };
}

/// A node of the search that starts there, at its path. Contracts see the path: it says what the node is.
#[derive(Drop)]
pub struct Placed<T: Source, S: Start<T>> {
    path: Path<T::Kind>,
    node: Waypoint<<T::Kind as SearchKind>::Branch, <T::Kind as SearchKind>::Leaf>,
    of: PhantomData<S>,
}

impl<T: Source, S: Start<T>> Model for Placed<T, S> {
    ghost use Rattle.std.specs.Prelude.{List};
    ghost use Rattle.recompute.specs.Places.{StandsAt};

    ghost Value = { List T.Kind.Branch };

    ghost view = { λ p. p.path };

    ghost invariant = { λ p. StandsAt T.Kind.search (T.maker S.start) (T.origin S.start) p.path p.node };
}

/// A node with alternatives, which workers share. Contracts see its path.
#[derive(Drop)]
pub struct Choice<T: Source, S: Start<T>> {
    node: Arc<Placed<T, S>, Global>,
}

impl<T: Source, S: Start<T>> Model for Choice<T, S> {
    ghost use Rattle.std.specs.Prelude.{List};
    ghost use Rattle.std.specs.Arc.{arc_value};

    ghost Value = { List T.Kind.Branch };

    ghost view = { λ c. arc_value c.node };
}

/// What there is at a path.
#[derive(Drop)]
pub struct Found<T: Source, S: Start<T>> {
    pub solved: Solved<<T::Kind as SearchKind>::Leaf>,
    /// The node, if it is a choice. There is none where memory is refused for it.
    pub choice: Option<Choice<T, S>>,
}

/// What there is, where it is no choice.
fn without_choice<T: Source, S: Start<T>>(
    solved: Solved<<T::Kind as SearchKind>::Leaf>,
) -> Found<T, S>
    ensures { result.solved ≡ solved }
{
    Found {
        solved,
        choice: None,
    }
}

/// A node with alternatives that workers may share from now on, unless memory is refused for that.
fn shared<T: Source, S: Start<T>>(alloc: Global, node: Placed<T, S>) -> Option<Choice<T, S>>
    ensures { IfSome result (λ choice. choice ≡ node) }
{
    match Arc::new(alloc, node) {
        Ok(node) => Some(Choice { node }),
        Err(_) => None,
    }
}

/// The node at its path, of which a leaf is no more than what is known of it.
fn found_node<T: Source, S: Start<T>>(
    alloc: Global,
    path: Path<T::Kind>,
    node: Waypoint<<T::Kind as SearchKind>::Branch, <T::Kind as SearchKind>::Leaf>,
) -> Found<T, S>
    requires { StandsAt T.Kind.search (T.maker S.start) (T.origin S.start) path node }
    ensures { result.solved ≡ Solved.Node node.report }
{
    let Waypoint {
        branch,
        machine,
        report,
    } = node;
    let Report { kind, steps } = report;
    match kind {
        Kind::End(leaf) => without_choice(Solved::Node(Report {
            kind: Kind::End(leaf),
            steps,
        })),
        Kind::Alternatives(count) => {
            let kind = Kind::Alternatives(count);
            let report = Report { kind, steps };
            let node = Waypoint {
                branch,
                machine,
                report,
            };
            let of = PhantomData;
            Found {
                solved: Solved::Node(Report {
                    kind: Kind::Alternatives(count),
                    steps,
                }),
                choice: shared(alloc, Placed { path, node, of }),
            }
        }
    }
}

/// What there is at the root, with all the steps that there are for the search.
pub fn solve_root<T: Source, S: Start<T>>(
    alloc: Global,
    source: &T,
) -> Result<Found<T, S>, AllocError>
    requires start { source.now ≡ S.start }
    ensures { IfOk result (λ found. found.solved ≡ answer_of (met_by T.Kind.search (T.maker S.start) (T.origin S.start) (T.origin S.start).budget [])) }
{
    let frozen = source.frozen();
    let machine = frozen.machine(alloc)?;
    match solved(alloc, source, T::Kind::free(0), machine, frozen.budget())? {
        None => Ok(without_choice(Solved::OutOfFuel { at: 0 })),
        Some(node) => Ok(found_node(alloc, Path::root(alloc), node)),
    }
}

/// What there is at a path, by the machine of the choice before it, committed to the last branch, with all the steps that there are for the
/// search.
fn reach<T: Source, S: Start<T>>(
    alloc: Global,
    source: &T,
    path: Path<T::Kind>,
    branch: <T::Kind as SearchKind>::Branch,
    machine: Option<Machine>,
) -> Result<Found<T, S>, AllocError>
    requires start { source.now ≡ S.start }
    requires machine { (p : List T.Kind.Branch) × (path ≡ p ++ branch ∷ []) × OpensAt T.Kind.search (T.maker S.start) (T.origin S.start) p branch machine }
    ensures { IfOk result (λ found. found.solved ≡ answer_of (met_by T.Kind.search (T.maker S.start) (T.origin S.start) (T.origin S.start).budget path)) }
{
    let at = path.len();
    let Some(machine) = machine else {
        return Ok(without_choice(Solved::NotANode { at }));
    };
    match solved(alloc, source, branch, machine, source.frozen().budget())? {
        None => Ok(without_choice(Solved::OutOfFuel { at })),
        Some(node) => Ok(found_node(alloc, path, node)),
    }
}

impl<T: Source, S: Start<T>> Placed<T, S> {
    /// How many alternatives the node has.
    fn count(&self) -> u32 {
        match self.node.report.kind {
            Kind::Alternatives(count) => count,
            Kind::End(_) => 0,
        }
    }

    /// A copy of its machine, committed to a branch. None where the node does not offer it.
    fn open(
        &self,
        alloc: Global,
        source: &T,
        branch: <T::Kind as SearchKind>::Branch,
    ) -> Result<Option<Machine>, AllocError>
        requires start { source.now ≡ S.start }
        ensures { IfOk result (OpensAt T.Kind.search (T.maker S.start) (T.origin S.start) self.now branch) }
    {
        opened(alloc, source, &self.node, branch)
    }

    /// Its machine, committed to a branch. None where the node does not offer it.
    fn open_last(
        self,
        alloc: Global,
        source: &T,
        branch: <T::Kind as SearchKind>::Branch,
    ) -> Result<Option<Machine>, AllocError>
        requires start { source.now ≡ S.start }
        ensures { IfOk result (OpensAt T.Kind.search (T.maker S.start) (T.origin S.start) self branch) }
    {
        let Placed {
            path: _,
            node,
            of: _,
        } = self;
        opened_last(alloc, source, node, branch)
    }
}

impl<T: Source, S: Start<T>> Choice<T, S> {
    /// The path at which the node stands.
    pub fn path(&self) -> &Path<T::Kind>
        ensures { result.now ≡ self.now }
    {
        &self.node.path
    }

    /// How many alternatives the node has.
    pub fn count(&self) -> u32 {
        self.node.count()
    }

    /// The same, for another worker. It takes no memory, and is refused only where too many have it.
    pub fn again(&self) -> Result<Choice<T, S>, AllocError>
        ensures { IfOk result (λ choice. choice ≡ self.now) }
    {
        Ok(Choice {
            node: Arc::try_clone(&self.node)?,
        })
    }

    /// The machine of the node, committed to a branch, or a copy of it where others have the node too. None where the node does not offer
    /// the branch.
    fn open(
        self,
        alloc: Global,
        source: &T,
        branch: <T::Kind as SearchKind>::Branch,
    ) -> Result<Option<Machine>, AllocError>
        requires start { source.now ≡ S.start }
        ensures { IfOk result (OpensAt T.Kind.search (T.maker S.start) (T.origin S.start) self branch) }
    {
        let Choice { node } = self;
        match Arc::try_unwrap(node) {
            Ok(node) => node.open_last(alloc, source, branch),
            Err(node) => node.open(alloc, source, branch),
        }
    }

    /// What there is at the node's path and then this branch, with all the steps that there are for the search. Others that have the node
    /// wait for nothing: it is given back before the child runs.
    pub fn solve_child(
        self,
        alloc: Global,
        source: &T,
        branch: <T::Kind as SearchKind>::Branch,
    ) -> Result<Found<T, S>, AllocError>
        requires start { source.now ≡ S.start }
        ensures { IfOk result (λ found. found.solved ≡ answer_of (met_by T.Kind.search (T.maker S.start) (T.origin S.start) (T.origin S.start).budget (self ++ branch ∷ []))) }
    {
        let path = self.path().child(branch)?;
        let machine = self.open(alloc, source, branch)?;
        reach(alloc, source, path, branch, machine)
    }
}
