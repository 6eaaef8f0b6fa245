//! What is kept of one space.
ghost use Rattle.std.specs.Prelude.{◌≡◌};
ghost use Rattle.space_core.specs.Beginnings.{IsTopLevel};
ghost use Rattle.space_core.specs.Shown.{next_of};

use crate::constraints::Constraints;
use crate::threads::Threads;
use cells_ports::Objects;
use oz_base::{Copies, Ident, Sequence, SpaceName};
use oz_semantics::{Next, Status, Trigger};
use std::alloc::{AllocError, Global};

/// The next number that a space gives out, by kind. A thread's is kept with the threads.
#[derive(Clone, Copy)]
pub struct Numbers {
    pub variable: u64,
    pub procedure: u64,
    pub name: u64,
    pub child: u64,
}

/// What is kept of one space.
#[derive(Drop)]
pub struct Level {
    pub space: SpaceName,
    pub status: Status,
    /// What the space sees, and its propagators. What it sees is empty where the space is bare.
    pub constraints: Constraints,
    /// The place in the store from which on the space was told itself what stands there. What stands before is what its parent sees.
    pub told_from: u64,
    /// Variables of the classes of its parent's view that are touched by what the space was told, but for the space's own. The
    /// top's are not noted.
    pub touched: Sequence<Ident>,
    pub threads: Threads,
    /// By-need computations that have not begun, in the order in which they came.
    pub triggers: Sequence<Trigger>,
    pub objects: Objects,
    pub numbers: Numbers,
    /// Whether all variables that were told of are those of the space and of spaces above it, and all of other spaces that is touched
    /// was noted.
    /// So it is in the runs of programs.
    pub traced: bool,
    /// Whether it was told of a space as a value. Where it is not set, it was not.
    pub knows_space: bool,
    /// It has ended, was told nothing, and nothing is kept of what it sees, which is what its parent sees. The top is never so.
    pub bare: bool,
}

impl Level {
    /// The numbers that the space gives out next.
    pub fn next(&self) -> Next
        ensures { result ≡ next_of self.now }
    {
        Next {
            variable: self.numbers.variable,
            thread: self.threads.next(),
            procedure: self.numbers.procedure,
            name: self.numbers.name,
            child: self.numbers.child,
        }
    }
}

impl Copies for Level {
    fn copied(&self, alloc: Global) -> Result<Self, AllocError> {
        Ok(Level {
            space: self.space.copied(alloc)?,
            status: self.status.copied(alloc)?,
            constraints: self.constraints.copied(alloc)?,
            told_from: self.told_from,
            touched: self.touched.copied(alloc)?,
            threads: self.threads.copied(alloc)?,
            triggers: self.triggers.copied(alloc)?,
            objects: self.objects.copied(alloc)?,
            numbers: self.numbers,
            traced: self.traced,
            knows_space: self.knows_space,
            bare: self.bare,
        })
    }
}

/// The top, which was told nothing and has no thread.
pub fn top_level(alloc: Global) -> Level
    ensures { IsTopLevel result }
{
    Level {
        space: SpaceName::top(),
        status: Status::Open,
        constraints: Constraints::new(alloc),
        told_from: 0,
        touched: Sequence::new(alloc),
        threads: Threads::new(alloc),
        triggers: Sequence::new(alloc),
        objects: Objects::new(),
        numbers: Numbers {
            variable: 1,
            procedure: 1,
            name: 1,
            child: 1,
        },
        traced: true,
        knows_space: false,
        bare: false,
    }
}
