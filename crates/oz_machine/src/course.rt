//! What a machine is in the course of its run.
ghost use Rattle.std.specs.Prelude.{◌≡◌, IfOk, option_copied};

use oz_base::{Copies, Ident, Sequence};
use oz_threads::Queue;
use shared_list::SharedList;
use space_core::Levels;
use std::alloc::{AllocError, Global};

/// Who is asked whether it can step, before the next step is made.
#[derive(Drop)]
pub enum Due {
    /// Nobody: the queue is as it is.
    Nobody,
    /// The thread that stepped, and the one that it started, if it did.
    Mover {
        mover: Ident,
        started: Option<Ident>,
    },
    /// The thread that stepped and told its space something, those of its space that are in the queue, and those with these numbers.
    Told {
        mover: Ident,
        woken: Sequence<u64>,
    },
    /// Everybody. The thread that stepped, if one did, joins before the others.
    Everybody {
        mover: Option<Ident>,
    },
}

/// The layers of all spaces, the queue with those who are yet to be asked, and what was shown.
#[derive(Drop)]
pub struct Course {
    pub levels: Levels,
    pub queue: Queue,
    pub due: Due,
    pub shown: SharedList<Sequence<u8>>,
}

fn copied_thread(alloc: Global, id: Option<&Ident>) -> Result<Option<Ident>, AllocError>
    ensures { IfOk result (λ copy. copy ≡ option_copied id.entry) }
{
    match id {
        None => Ok(None),
        Some(id) => Ok(Some(id.copied(alloc)?)),
    }
}

impl Copies for Due {
    /// It takes no memory.
    fn copied(&self, alloc: Global) -> Result<Self, AllocError> {
        match self {
            Due::Nobody => Ok(Due::Nobody),
            Due::Mover { mover, started } => Ok(Due::Mover {
                mover: mover.copied(alloc)?,
                started: copied_thread(alloc, started.as_ref())?,
            }),
            Due::Told { mover, woken } => Ok(Due::Told {
                mover: mover.copied(alloc)?,
                woken: woken.copied(alloc)?,
            }),
            Due::Everybody { mover } => Ok(Due::Everybody {
                mover: copied_thread(alloc, mover.as_ref())?,
            }),
        }
    }
}

impl Copies for Course {
    fn copied(&self, alloc: Global) -> Result<Self, AllocError> {
        Ok(Course {
            levels: self.levels.copied(alloc)?,
            queue: self.queue.copied(alloc)?,
            due: self.due.copied(alloc)?,
            shown: self.shown.copied(alloc)?,
        })
    }
}
