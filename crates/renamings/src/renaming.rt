//! A change of the names of spaces, and of what is named in them.
ghost use Rattle.std.specs.Prelude.{◌≡◌, ◌+◌, ◌++◌, true, not, nat_eq, drop, length, IfOk};
ghost use Rattle.std.specs.List.{starts_with};
ghost use Rattle.renamings.specs.Spaces.{moved, merged, raised_child};
ghost use Rattle.renamings.specs.Renames.{space_by, ident_by, subject};
ghost use Rattle.renamings.specs.declared.given.Kind.{Kind};

use crate::{GivenOut, Kind};
use oz_base::{Copies, Ident, SpaceName, same_space};
use std::alloc::{AllocError, Global};

/// Where the names of spaces go, and the names of what is in them.
#[derive(Drop)]
pub enum Renaming {
    /// Of a copy: the name of the space `from` becomes `to`, also at the head of the names of the spaces below it.
    Move {
        from: SpaceName,
        to: SpaceName,
    },
    /// Of a space that becomes a part of its parent: what is in it is named in the parent, with numbers behind those that the parent
    /// has given out, and the spaces below it are below the parent.
    Merge {
        child: SpaceName,
        parent: SpaceName,
        given: GivenOut,
    },
}

impl Renaming {
    /// The new name of a space. A name that stays takes no memory. It refuses a number above 2^64 - 1.
    pub fn space(&self, alloc: Global, space: &SpaceName) -> Result<SpaceName, AllocError>
        ensures { IfOk result (λ renamed. renamed ≡ space_by self.now space.now) }
    {
        match self {
            Renaming::Move { from, to } => moved(alloc, from, to, space),
            Renaming::Merge {
                child,
                parent,
                given,
            } => merged(alloc, child, parent, given.children, space),
        }
    }

    /// The new name of what is named so, of this kind. It refuses a number above 2^64 - 1.
    pub fn ident(&self, alloc: Global, kind: Kind, ident: &Ident) -> Result<Ident, AllocError>
        ensures { IfOk result (λ renamed. renamed ≡ ident_by kind self.now ident.now) }
    {
        match self {
            Renaming::Move { from, to } => Ok(Ident {
                space: moved(alloc, from, to, &ident.space)?,
                number: ident.number,
            }),
            Renaming::Merge {
                child,
                parent,
                given,
            } => {
                if same_space(&ident.space, child) {
                    return Ok(Ident {
                        space: parent.copied(alloc)?,
                        number: raised(ident.number, given.of(kind))?,
                    });
                }
                Ok(Ident {
                    space: merged(alloc, child, parent, given.children, &ident.space)?,
                    number: ident.number,
                })
            }
        }
    }
}

impl Renaming {
    /// The space that is copied, or that becomes a part of its parent.
    fn subject(&self) -> &SpaceName
        ensures { result.now ≡ subject self.now }
    {
        match self {
            Renaming::Move { from, to: _ } => from,
            Renaming::Merge {
                child,
                parent: _,
                given: _,
            } => child,
        }
    }

    /// Whether what is named so is in another space than the one that is renamed and those below it. Then it keeps its name.
    #[tactic(auto, using(crate::proofs::Outside::kept_outside))]
    pub fn keeps(&self, ident: &Ident) -> bool
        ensures outside { result ≡ not (starts_with nat_eq ident.now.space (subject self.now)) }
        ensures kept { result ≡ true → (kind : Kind) → ident_by kind self.now ident.now ≡ ident.now }
    {
        !self.subject().is_above(&ident.space)
    }
}

fn moved(
    alloc: Global,
    from: &SpaceName,
    to: &SpaceName,
    space: &SpaceName,
) -> Result<SpaceName, AllocError>
    ensures { IfOk result (λ renamed. renamed ≡ moved from.now to.now space.now) }
{
    if from.is_above(space) {
        return joined(
            alloc,
            to,
            rest_after(space.as_slice(), from.as_slice().len()),
        );
    }
    space.copied(alloc)
}

fn merged(
    alloc: Global,
    child: &SpaceName,
    parent: &SpaceName,
    children: u64,
    space: &SpaceName,
) -> Result<SpaceName, AllocError>
    ensures { IfOk result (λ renamed. renamed ≡ merged child.now parent.now children space.now) }
{
    if !child.is_above(space) {
        return space.copied(alloc);
    }
    if same_space(child, space) {
        return space.copied(alloc);
    }
    let rest = rest_after(space.as_slice(), child.as_slice().len());
    beside(alloc, parent, children, rest)
}

/// The name that goes on behind the parent's with these numbers, of which the first grows.
fn beside(
    alloc: Global,
    parent: &SpaceName,
    children: u64,
    rest: &[u64],
) -> Result<SpaceName, AllocError>
    ensures { IfOk result (λ name. name ≡ raised_child parent.now children rest.now) }
{
    let Some((first, others)) = rest.split_first() else {
        return parent.copied(alloc);
    };
    let child = parent.child(alloc, raised(*first, children)?)?;
    joined(alloc, &child, others)
}

/// The name that goes on behind this one with these numbers.
fn joined(alloc: Global, space: &SpaceName, more: &[u64]) -> Result<SpaceName, AllocError>
    ensures { IfOk result (λ name. name ≡ space.now ++ more.now) }
{
    let mut name = space.copied(alloc)?;
    for number in more {
        name = name.child(alloc, *number)?;
    }
    Ok(name)
}

/// The numbers after so many.
fn rest_after(numbers: &[u64], count: usize) -> &[u64]
    ensures { result.now ≡ drop count numbers.now }
{
    if count > numbers.len() {
        return &[];
    }
    &numbers[count..]
}

fn raised(number: u64, by: u64) -> Result<u64, AllocError>
    ensures { IfOk result (λ sum. sum ≡ number + by) }
{
    match number.checked_add(by) {
        Some(sum) => Ok(sum),
        None => Err(AllocError),
    }
}
