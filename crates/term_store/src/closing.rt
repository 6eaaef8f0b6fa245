//! The closing of what is told: pairs of variables that are to be joined wait in a list, until none is left or values differ, or domains
//! have nothing in common.
ghost use Rattle.std.specs.Prelude.{◌≡◌, ◌++◌, ◌∷◌, ◌⊎◌, [], true, false, Some, IfOk, OnOk, option_copied};
ghost use Rattle.std.specs.List.{zip};
ghost use Rattle.oz_base.specs.Names.{ident_eq};
ghost use Rattle.term_store.specs.Bounds.{Fits, Keeps};
ghost use Rattle.term_store.specs.Classes.{IsTop, first_in, kept_in, is_nothing};
ghost use Rattle.term_store.specs.Closing.{Going, Comes, Settles};
ghost use Rattle.term_store.specs.Logs.{told_in};
ghost use Rattle.term_store.specs.Taking.{FirstsMeet, JoinsKept, Takes, ValuesMeet};

use crate::cell::Kept;
use crate::class_domain::{ClassDomain, Met, common};
use crate::classes::Classes;
use crate::log::Log;
use crate::values::{fields_of, is_like};
use oz_base::{Copies, Ident, Shared};
use std::alloc::{AllocError, Global};

fn push_zipped(
    alloc: Global,
    pairs: &mut Vec<(Ident, Ident)>,
    left: &[Ident],
    right: &[Ident],
) -> Result<(), AllocError>
    ensures { OnOk result (pairs.new.items ≡ pairs.old.items ++ zip left.now right.now) }
{
    for (a, b) in left.iter().zip(right) {
        pairs.push((a.copied(alloc)?, b.copied(alloc)?))?;
    }
    Ok(())
}

/// The pairs of the items of two lists.
pub fn zipped(
    alloc: Global,
    left: &[Ident],
    right: &[Ident],
) -> Result<Vec<(Ident, Ident)>, AllocError>
    ensures { IfOk result (λ pairs. pairs.items ≡ zip left.now right.now) }
{
    let mut pairs = Vec::new(alloc);
    push_zipped(alloc, &mut pairs, left, right)?;
    Ok(pairs)
}

/// What a store becomes.
#[derive(Drop)]
pub struct Draft {
    /// All that it is told.
    pub log: Log,
    pub classes: Classes,
    /// Pairs that are still to be joined.
    pub pending: Vec<(Ident, Ident)>,
    /// A variable of each class that was joined with another.
    pub touched: Vec<Ident>,
}

/// The place of the first value of two classes, or why they have none.
#[derive(Drop)]
enum FirstOfTwo {
    /// They have values that differ.
    Differ,
    /// The first value of both, if there is one.
    First(Option<u64>),
}

/// Whether the value at the place, if there is one, is an integer of the domain, if there is one.
fn suits(
    log: &Log,
    first: Option<u64>,
    domain: Option<&Shared<ClassDomain>>,
) -> Result<bool, AllocError>
    ensures { IfOk result (Fits (told_in log.now) first (option_copied domain.entry)) }
{
    match (first, domain) {
        (Some(place), Some(domain)) => value_suits(log, place, domain.get()),
        _ => Ok(true),
    }
}

/// Whether the value at the place is an integer of the domain.
fn value_suits(log: &Log, place: u64, domain: &ClassDomain) -> Result<bool, AllocError>
    ensures { IfOk result (Fits (told_in log.now) (Some place) (Some domain.now)) }
{
    match log.value(place) {
        None => Err(AllocError),
        Some(value) => Ok(domain.has(value)),
    }
}

/// What is kept of a class that has two domains, and whose first value is at the place: nothing where no integer is left, or the
/// value is none that is.
pub fn kept_of_two(
    alloc: Global,
    log: &Log,
    first: Option<u64>,
    one: Option<&Shared<ClassDomain>>,
    other: Option<&Shared<ClassDomain>>,
) -> Result<Option<Kept>, AllocError>
    ensures { IfOk result (Keeps (told_in log.now) first (option_copied one.entry) (option_copied other.entry)) }
{
    match common(alloc, one, other)? {
        Met::Nothing => Ok(None),
        Met::Left(domain) => {
            if !suits(log, first, domain.as_ref())? {
                return Ok(None);
            }
            Ok(Some(Kept { first, domain }))
        }
    }
}

impl Draft {
    /// The first value of two classes whose first values are those at two places. Their fields are to be joined.
    fn first_of_values(
        &mut self,
        alloc: Global,
        place: u64,
        other: u64,
    ) -> Result<FirstOfTwo, AllocError>
        ensures first { IfOk result (ValuesMeet (told_in self.old.log) place other self.old.pending.items self.new.pending.items) }
        ensures log { self.new.log ≡ self.old.log }
        ensures classes { self.new.classes ≡ self.old.classes }
        ensures touched { self.new.touched.items ≡ self.old.touched.items }
    {
        match (self.log.value(place), self.log.value(other)) {
            (Some(value), Some(another)) => {
                if !is_like(value, another) {
                    return Ok(FirstOfTwo::Differ);
                }
                push_zipped(
                    alloc,
                    &mut self.pending,
                    fields_of(value),
                    fields_of(another),
                )?;
                Ok(FirstOfTwo::First(Some(place.min(other))))
            }
            _ => Err(AllocError),
        }
    }

    /// The first value of two classes. If both have one, their fields are to be joined.
    fn first_of_two(
        &mut self,
        alloc: Global,
        left: &Ident,
        right: &Ident,
    ) -> Result<FirstOfTwo, AllocError>
        ensures first { IfOk result (FirstsMeet (told_in self.old.log) (first_in self.old.classes left.now) (first_in self.old.classes right.now) self.old.pending.items self.new.pending.items) }
        ensures log { self.new.log ≡ self.old.log }
        ensures classes { self.new.classes ≡ self.old.classes }
        ensures touched { self.new.touched.items ≡ self.old.touched.items }
    {
        match (self.classes.first(left), self.classes.first(right)) {
            (Some(place), Some(other)) => self.first_of_values(alloc, place, other),
            (None, first) => Ok(FirstOfTwo::First(first)),
            (first, None) => Ok(FirstOfTwo::First(first)),
        }
    }

    /// Joins two classes whose first value is that at the place: not if no integer is left to them, or the value is none that is.
    fn join_kept(
        &mut self,
        alloc: Global,
        left: &Ident,
        right: &Ident,
        first: Option<u64>,
    ) -> Result<bool, AllocError>
        requires left { IsTop self.old.classes left.now }
        requires right { IsTop self.old.classes right.now }
        requires apart { ident_eq left.now right.now ≡ false }
        ensures joins { IfOk result (JoinsKept (told_in self.old.log) self.old.classes self.new.classes left.now right.now first) }
        ensures log { self.new.log ≡ self.old.log }
        ensures pending { self.new.pending.items ≡ self.old.pending.items }
        ensures touched { self.new.touched.items ≡ self.old.touched.items }
    {
        let one = self.classes.domain(left);
        let other = self.classes.domain(right);
        let Some(kept) = kept_of_two(alloc, &self.log, first, one, other)? else {
            return Ok(false);
        };
        self.classes.unite_with(alloc, left, right, kept)?;
        Ok(true)
    }

    /// Joins two classes of each of which something is kept: not if they have values that differ, or domains and a value with nothing
    /// in common.
    fn join_two(&mut self, alloc: Global, left: &Ident, right: &Ident) -> Result<bool, AllocError>
        requires left { IsTop self.old.classes left.now }
        requires right { IsTop self.old.classes right.now }
        requires apart { ident_eq left.now right.now ≡ false }
        ensures takes { IfOk result (Takes (told_in self.old.log) self.old.classes self.new.classes left.now right.now self.old.pending.items self.new.pending.items) }
        ensures log { self.new.log ≡ self.old.log }
        ensures touched { self.new.touched.items ≡ self.old.touched.items }
    {
        match self.first_of_two(alloc, left, right)? {
            FirstOfTwo::Differ => Ok(false),
            FirstOfTwo::First(first) => self.join_kept(alloc, left, right, first),
        }
    }

    /// Joins two classes of one of which nothing is kept.
    fn join_free(&mut self, alloc: Global, left: &Ident, right: &Ident) -> Result<bool, AllocError>
        requires left { IsTop self.old.classes left.now }
        requires right { IsTop self.old.classes right.now }
        requires apart { ident_eq left.now right.now ≡ false }
        requires free { (is_nothing (kept_in self.old.classes left.now) ≡ true) ⊎ (is_nothing (kept_in self.old.classes right.now) ≡ true) }
        ensures takes { IfOk result (Takes (told_in self.old.log) self.old.classes self.new.classes left.now right.now self.old.pending.items self.new.pending.items) }
        ensures log { self.new.log ≡ self.old.log }
        ensures touched { self.new.touched.items ≡ self.old.touched.items }
    {
        self.classes.unite(alloc, left, right)?;
        Ok(true)
    }

    /// Joins the classes that two variables stand for: not if they have values that differ, or domains and a value with nothing in common.
    fn join(&mut self, alloc: Global, left: &Ident, right: &Ident) -> Result<bool, AllocError>
        requires left { IsTop self.old.classes left.now }
        requires right { IsTop self.old.classes right.now }
        requires apart { ident_eq left.now right.now ≡ false }
        ensures takes { IfOk result (Takes (told_in self.old.log) self.old.classes self.new.classes left.now right.now self.old.pending.items self.new.pending.items) }
        ensures log { self.new.log ≡ self.old.log }
        ensures touched { self.new.touched.items ≡ self.old.touched.items }
    {
        if self.classes.has_nothing(left) {
            return self.join_free(alloc, left, right);
        }
        if self.classes.has_nothing(right) {
            return self.join_free(alloc, left, right);
        }
        self.join_two(alloc, left, right)
    }

    /// Joins the classes of two variables: not if they have values that differ.
    fn meet(&mut self, alloc: Global, left: &Ident, right: &Ident) -> Result<bool, AllocError>
        requires { Going (told_in self.old.log) self.old.classes (self.old.pending.items ++ (left.now, right.now) ∷ []) }
        ensures comes { IfOk result (Comes (told_in self.old.log) self.old.classes self.new.classes self.old.pending.items self.new.pending.items self.old.touched.items self.new.touched.items) }
        ensures log { self.new.log ≡ self.old.log }
    {
        let a = self.classes.root(left);
        let b = self.classes.root(right);
        if a == b {
            return Ok(true);
        }
        let a = a.copied(alloc)?;
        let b = b.copied(alloc)?;
        if !self.join(alloc, &a, &b)? {
            return Ok(false);
        }
        self.touched.push(a)?;
        self.touched.push(b)?;
        Ok(true)
    }

    /// Joins all pairs: not if values differ.
    pub fn settle(&mut self, alloc: Global) -> Result<bool, AllocError>
        requires { Going (told_in self.old.log) self.old.classes self.old.pending.items }
        ensures settles { IfOk result (Settles (told_in self.old.log) self.old.classes self.new.classes self.old.touched.items self.new.touched.items) }
        ensures log { self.new.log ≡ self.old.log }
    {
        'pairs: while let Some((a, b)) = self.pending.pop() {
            if !self.meet(alloc, &a, &b)? {
                return Ok(false);
            }
        }
        Ok(true)
    }
}
