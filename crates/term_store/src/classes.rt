//! Classes of variables: trees, each of whose roots stands for a class.
ghost use Rattle.std.specs.Prelude.{◌≡◌, ◌<◌, ◌⊎◌, ◌&&◌, ◌==◌, not, is_some, true, false, None, IfOk, OnOk, OnErr, option_copied};
ghost use Rattle.oz_base.specs.Names.{ident_eq};
ghost use Rattle.ident_map.specs.Entries.{entry};
ghost use Rattle.term_store.specs.Classes.{link_of, link_in, rank_of, first_of, domain_of, kept_of, rank_in, first_in, domain_in, kept_in, root_in, is_free, is_nothing, IsTop, Likewise, Marks, Unites, UnitesOne, UnitesFree, UnitesAny, UnitesWith, Knows};

use crate::cell::{Cell, Kept};
use crate::class_domain::{ClassDomain, domain_copy};
use ident_map::IdentMap;
use oz_base::{Copies, Ident, Shared, same_ident};
use std::alloc::{AllocError, Global};
use std::marker::Model;

/// The variable that stands for a class, with what is kept of it.
#[derive(Clone, Copy)]
pub struct Found<'s, 'r> {
    pub root: &'r Ident,
    pub rank: u8,
    /// The place at which the first value of the class was told.
    pub first: Option<u64>,
    /// The integers that all domains have which were told of the class.
    pub domain: Option<&'s Shared<ClassDomain>>,
}

impl<'s, 'r> Found<'s, 'r> {
    /// Whether the class has neither a value nor a domain.
    pub fn has_nothing(&self) -> bool
        ensures { result ≡ is_free self.now.first (option_copied self.now.domain) }
    {
        match (self.first, self.domain) {
            (None, None) => true,
            _ => false,
        }
    }

    /// A copy, which stands apart from the classes.
    pub fn top(&self, alloc: Global) -> Result<Top, AllocError>
        ensures root { IfOk result (λ top. top.root ≡ self.now.root.now) }
        ensures rank { IfOk result (λ top. top.rank ≡ self.now.rank) }
        ensures kept { IfOk result (λ top. top.kept ≡ record { first = self.now.first; domain = option_copied self.now.domain }) }
    {
        Ok(Top {
            root: self.root.copied(alloc)?,
            rank: self.rank,
            kept: Kept {
                first: self.first,
                domain: domain_copy(alloc, self.domain)?,
            },
        })
    }
}

/// A variable that stands for a class, with what is kept of it, apart from the classes.
#[derive(Drop)]
pub struct Top {
    pub root: Ident,
    pub rank: u8,
    pub kept: Kept,
}

impl Top {
    /// Whether the class has neither a value nor a domain.
    fn has_nothing(&self) -> bool
        ensures { result ≡ is_nothing self.now.kept }
    {
        match (self.kept.first, &self.kept.domain) {
            (None, None) => true,
            _ => false,
        }
    }
}

fn rank_of(cell: Option<&Cell>) -> u8
    ensures { result ≡ rank_of (option_copied cell.entry) }
{
    match cell {
        None => 0,
        Some(Cell::Below { rank, .. }) => *rank,
        Some(Cell::Root { rank, .. }) => *rank,
    }
}

fn first_of(cell: Option<&Cell>) -> Option<u64>
    ensures { result ≡ first_of (option_copied cell.entry) }
{
    match cell {
        Some(Cell::Root { kept, .. }) => kept.first,
        _ => None,
    }
}

fn domain_of<'a>(cell: Option<&'a Cell>) -> Option<&'a Shared<ClassDomain>>
    ensures { option_copied result ≡ domain_of (option_copied cell.entry) }
{
    match cell {
        Some(Cell::Root { kept, .. }) => kept.domain.as_ref(),
        _ => None,
    }
}

/// Whether a variable of which this is kept stands for a class and has rank 0, so that no other is below it.
fn stands_alone(cell: Option<&Cell>) -> bool
    ensures { result ≡ not (is_some (link_of (option_copied cell.entry))) && (rank_of (option_copied cell.entry) == 0) }
{
    match cell {
        None => true,
        Some(Cell::Below { .. }) => false,
        Some(Cell::Root { rank, .. }) => *rank == 0,
    }
}

fn kept_of(alloc: Global, cell: Option<&Cell>) -> Result<Kept, AllocError>
    ensures { IfOk result (λ kept. kept ≡ kept_of (option_copied cell.entry)) }
{
    match cell {
        Some(Cell::Root { kept, .. }) => kept.copied(alloc),
        _ => Ok(Kept::nothing()),
    }
}

/// Classes of variables. A variable of which nothing is kept is alone in its class.
///
/// A tree of n variables has a height of at most log n + 1, and a look takes as many steps. A copy shares what is kept.
#[derive(Drop)]
pub struct Classes {
    cells: IdentMap<Cell>,
}

impl Model for Classes {
    ghost use Rattle.std.specs.FinMap as map;
    ghost use Rattle.std.specs.Coded.{codes};
    ghost use Rattle.term_store.specs.Classes.{Table, Ranked};

    ghost Value = { Table };

    ghost coded = { Prim.hlevel (codes, map.code) };

    ghost view = { λ c. c.cells };

    ghost invariant = { λ c. Ranked c.cells };
}

impl Classes {
    /// Each variable is alone. It takes no memory.
    pub fn new(alloc: Global) -> Classes
        ensures { (x : Ident) → entry result x ≡ None }
    {
        Classes {
            cells: IdentMap::new(alloc),
        }
    }

    fn rank(&self, variable: &Ident) -> u8
        ensures { result ≡ rank_in self.now variable.now }
    {
        rank_of(self.cells.get(variable))
    }

    /// The place at which the first value was told of the class that a variable stands for.
    pub fn first(&self, root: &Ident) -> Option<u64>
        ensures { result ≡ first_in self.now root.now }
    {
        first_of(self.cells.get(root))
    }

    /// The integers that all domains have which were told of the class that a variable stands for.
    pub fn domain(&self, root: &Ident) -> Option<&Shared<ClassDomain>>
        ensures { option_copied result ≡ domain_in self.now root.now }
    {
        domain_of(self.cells.get(root))
    }

    /// A variable that stands for a class, with what is kept of it. It is looked up once.
    fn top(&self, alloc: Global, root: &Ident) -> Result<Top, AllocError>
        requires { IsTop self.now root.now }
        ensures root { IfOk result (λ top. top.root ≡ root.now) }
        ensures known { IfOk result (Knows self.now) }
    {
        let cell = self.cells.get(root);
        Ok(Top {
            root: root.copied(alloc)?,
            rank: rank_of(cell),
            kept: kept_of(alloc, cell)?,
        })
    }

    /// Whether the class that a variable stands for has neither a value nor a domain.
    pub fn has_nothing(&self, root: &Ident) -> bool
        ensures { result ≡ is_nothing (kept_in self.now root.now) }
    {
        match (self.first(root), self.domain(root)) {
            (None, None) => true,
            _ => false,
        }
    }

    /// The variable that stands for the class of another, and what is kept of it. Each variable on the way is looked up once.
    pub fn find<'s: 'r, 'r>(&'s self, variable: &'r Ident) -> Found<'s, 'r>
        ensures root { result.root.now ≡ root_in self.now variable.now }
        ensures top { IsTop self.now result.root.now }
        ensures rank { result.rank ≡ rank_in self.now result.root.now }
        ensures first { result.first ≡ first_in self.now result.root.now }
        ensures domain { option_copied result.domain ≡ domain_in self.now result.root.now }
    {
        let mut root = variable;
        let mut cell = self.cells.get(root);
        'climb: while let Some(Cell::Below { parent, .. }) = cell {
            root = parent;
            cell = self.cells.get(root);
        }
        Found {
            root,
            rank: rank_of(cell),
            first: first_of(cell),
            domain: domain_of(cell),
        }
    }

    /// The variable that stands for the class of another.
    pub fn root<'a>(&'a self, variable: &'a Ident) -> &'a Ident
        ensures root { result.now ≡ root_in self.now variable.now }
        ensures top { IsTop self.now result.now }
    {
        self.find(variable).root
    }

    /// Whether two variables are of one class.
    pub fn are_one(&self, left: &Ident, right: &Ident) -> bool
        ensures { result ≡ ident_eq (root_in self.now left.now) (root_in self.now right.now) }
    {
        same_ident(self.root(left), self.root(right))
    }

    /// Whether no other variable is of the class of this one. It is looked up once. After a lack of memory this may be false of one that
    /// is alone as well.
    pub fn is_alone(&self, variable: &Ident) -> bool
        ensures { result ≡ true → (other : Ident) → root_in self.now other ≡ root_in self.now variable.now → other ≡ variable.now }
    {
        stands_alone(self.cells.get(variable))
    }

    /// This is kept from now on of the class that a variable of this rank stands for. An error is for lack of memory.
    pub fn mark(
        &mut self,
        alloc: Global,
        root: &Ident,
        rank: u8,
        kept: Kept,
    ) -> Result<(), AllocError>
        requires top { IsTop self.old root.now }
        requires rank { rank ≡ rank_in self.old root.now }
        ensures ok { OnOk result (Marks self.old self.new root.now kept) }
        ensures err { OnErr result (self.new ≡ self.old) }
    {
        self.cells.insert(alloc, root, Cell::Root { rank, kept })?;
        Ok(())
    }

    /// Raises the rank of a variable that stands for a class.
    fn raise(&mut self, alloc: Global, top: &Top, rank: u8) -> Result<(), AllocError>
        requires known { Knows self.old top.now }
        requires more { top.now.rank < rank }
        ensures likewise { Likewise self.old self.new }
        ensures ok { OnOk result (rank_in self.new top.now.root ≡ rank) }
        ensures others { (x : Ident) → ident_eq x top.now.root ≡ false → rank_in self.new x ≡ rank_in self.old x }
    {
        let kept = top.kept.copied(alloc)?;
        self.cells
            .insert(alloc, &top.root, Cell::Root { rank, kept })?;
        Ok(())
    }

    /// Raises the rank of a variable that stands for a class above another.
    fn raise_above(&mut self, alloc: Global, top: &Top, rank: u8) -> Result<(), AllocError>
        requires { Knows self.old top.now }
        ensures likewise { Likewise self.old self.new }
        ensures ok { OnOk result (rank < rank_in self.new top.now.root) }
        ensures others { (x : Ident) → ident_eq x top.now.root ≡ false → rank_in self.new x ≡ rank_in self.old x }
    {
        if rank < top.rank {
            return Ok(());
        }
        if rank == u8::MAX {
            return Err(AllocError);
        }
        self.raise(alloc, top, rank + 1)
    }

    /// Puts one of this rank that stands for a class below another, of a higher rank.
    fn link(
        &mut self,
        alloc: Global,
        under: &Ident,
        rank: u8,
        over: &Ident,
    ) -> Result<(), AllocError>
        requires under { IsTop self.old under.now }
        requires over { IsTop self.old over.now }
        requires rank { rank ≡ rank_in self.old under.now }
        requires higher { rank_in self.old under.now < rank_in self.old over.now }
        ensures ok { OnOk result (Unites self.old self.new under.now over.now (kept_in self.old over.now)) }
        ensures err { OnErr result (self.new ≡ self.old) }
    {
        let parent = over.copied(alloc)?;
        self.cells
            .insert(alloc, under, Cell::Below { parent, rank })?;
        Ok(())
    }

    /// Puts one that stands for a class below another.
    fn put(&mut self, alloc: Global, under: &Top, over: &Top) -> Result<(), AllocError>
        requires under { Knows self.old under.now }
        requires over { Knows self.old over.now }
        requires apart { ident_eq under.now.root over.now.root ≡ false }
        ensures ok { OnOk result (Unites self.old self.new under.now.root over.now.root (kept_in self.old over.now.root)) }
        ensures err { OnErr result (Likewise self.old self.new) }
    {
        self.raise_above(alloc, over, under.rank)?;
        self.link(alloc, &under.root, under.rank, &over.root)
    }

    /// Puts the lower tree of two below the other.
    fn put_lower(&mut self, alloc: Global, left: &Top, right: &Top) -> Result<(), AllocError>
        requires left { Knows self.old left.now }
        requires right { Knows self.old right.now }
        requires apart { ident_eq left.now.root right.now.root ≡ false }
        ensures ok { OnOk result (UnitesOne self.old self.new left.now.root right.now.root) }
        ensures err { OnErr result (Likewise self.old self.new) }
    {
        if left.rank < right.rank {
            return self.put(alloc, left, right);
        }
        self.put(alloc, right, left)
    }

    /// Joins two classes, of one of which nothing is kept: one of which something is stands for both. Neither is looked up. An error is for
    /// lack of memory, and leaves the classes.
    pub fn unite_tops(&mut self, alloc: Global, left: &Top, right: &Top) -> Result<(), AllocError>
        requires left { Knows self.old left.now }
        requires right { Knows self.old right.now }
        requires apart { ident_eq left.now.root right.now.root ≡ false }
        requires free { (is_nothing left.now.kept ≡ true) ⊎ (is_nothing right.now.kept ≡ true) }
        ensures ok { OnOk result (UnitesFree self.old self.new left.now.root right.now.root) }
        ensures err { OnErr result (Likewise self.old self.new) }
    {
        match (left.has_nothing(), right.has_nothing()) {
            (true, true) => self.put_lower(alloc, left, right),
            (true, false) => self.put(alloc, left, right),
            (false, _) => self.put(alloc, right, left),
        }
    }

    /// Joins the classes that two variables stand for, of one of which nothing is kept: one of which something is stands for both. An
    /// error is for lack of memory, and leaves the classes.
    pub fn unite(&mut self, alloc: Global, left: &Ident, right: &Ident) -> Result<(), AllocError>
        requires left { IsTop self.old left.now }
        requires right { IsTop self.old right.now }
        requires apart { ident_eq left.now right.now ≡ false }
        requires free { (is_nothing (kept_in self.old left.now) ≡ true) ⊎ (is_nothing (kept_in self.old right.now) ≡ true) }
        ensures ok { OnOk result (UnitesFree self.old self.new left.now right.now) }
        ensures err { OnErr result (Likewise self.old self.new) }
    {
        let one = self.top(alloc, left)?;
        let other = self.top(alloc, right)?;
        self.unite_tops(alloc, &one, &other)
    }

    /// Puts one that stands for a class below another, of which this is kept from now on.
    fn put_with(
        &mut self,
        alloc: Global,
        under: &Top,
        over: &Top,
        kept: Kept,
    ) -> Result<(), AllocError>
        requires under { Knows self.old under.now }
        requires over { Knows self.old over.now }
        requires apart { ident_eq under.now.root over.now.root ≡ false }
        ensures { OnOk result (Unites self.old self.new under.now.root over.now.root kept) }
    {
        self.put(alloc, under, over)?;
        let rank = self.rank(&over.root);
        self.mark(alloc, &over.root, rank, kept)?;
        Ok(())
    }

    /// Puts the lower tree of two below the other.
    fn put_lower_with(
        &mut self,
        alloc: Global,
        left: &Top,
        right: &Top,
        kept: Kept,
    ) -> Result<(), AllocError>
        requires left { Knows self.old left.now }
        requires right { Knows self.old right.now }
        requires apart { ident_eq left.now.root right.now.root ≡ false }
        ensures { OnOk result (UnitesAny self.old self.new left.now.root right.now.root kept) }
    {
        if left.rank < right.rank {
            return self.put_with(alloc, left, right, kept);
        }
        self.put_with(alloc, right, left, kept)
    }

    /// Joins two classes, of which this is kept. Where one alone has a value, it stands for both.
    fn unite_tops_with(
        &mut self,
        alloc: Global,
        left: &Top,
        right: &Top,
        kept: Kept,
    ) -> Result<(), AllocError>
        requires left { Knows self.old left.now }
        requires right { Knows self.old right.now }
        requires apart { ident_eq left.now.root right.now.root ≡ false }
        ensures { OnOk result (UnitesWith self.old self.new left.now.root right.now.root kept) }
    {
        match (left.kept.first, right.kept.first) {
            (None, Some(_)) => self.put_with(alloc, left, right, kept),
            (Some(_), None) => self.put_with(alloc, right, left, kept),
            (None, None) => self.put_lower_with(alloc, left, right, kept),
            (Some(_), Some(_)) => self.put_lower_with(alloc, left, right, kept),
        }
    }

    /// Joins the classes that two variables stand for, of which this is kept. Where one alone has a value, it stands for both.
    pub fn unite_with(
        &mut self,
        alloc: Global,
        left: &Ident,
        right: &Ident,
        kept: Kept,
    ) -> Result<(), AllocError>
        requires left { IsTop self.old left.now }
        requires right { IsTop self.old right.now }
        requires apart { ident_eq left.now right.now ≡ false }
        ensures { OnOk result (UnitesWith self.old self.new left.now right.now kept) }
    {
        let one = self.top(alloc, left)?;
        let other = self.top(alloc, right)?;
        self.unite_tops_with(alloc, &one, &other, kept)
    }
}

impl Copies for Classes {
    /// It takes the time and memory of a few words, and of as many for each space below the top of which something is kept.
    fn copied(&self, alloc: Global) -> Result<Self, AllocError> {
        Ok(Classes {
            cells: self.cells.copied(alloc)?,
        })
    }
}
