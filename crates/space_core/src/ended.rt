//! Which threads of a space may have ended.
ghost use Rattle.std.specs.Prelude.{◌≡◌};
ghost use Rattle.oz_base.specs.Lists.{is_empty};

use oz_semantics::Thread;

/// Which threads of a space may have no statements left.
#[derive(Clone, Copy)]
pub enum Ended {
    Nobody,
    /// The thread with this number, and no other one.
    AtMost(u64),
    Several,
}

impl Ended {
    ghost use Rattle.space_core.specs.Threads.{with_ended, with_seen, with_other};

    /// The thread with this number may have ended too.
    pub fn with(self, number: u64) -> Ended
        ensures { result ≡ with_ended number self }
    {
        match self {
            Ended::Nobody => Ended::AtMost(number),
            Ended::AtMost(one) => {
                if one == number {
                    Ended::AtMost(one)
                } else {
                    Ended::Several
                }
            }
            Ended::Several => Ended::Several,
        }
    }

    /// What is known after a look at a thread that was changed.
    pub fn with_seen(self, thread: &Thread) -> Ended
        ensures { result ≡ with_seen thread.now self }
    {
        if is_terminated(thread) {
            self.with(thread.number)
        } else {
            self
        }
    }

    /// What is known once the threads of another space came, under other numbers.
    pub fn with_other(self, other: Ended) -> Ended
        ensures { result ≡ with_other other self }
    {
        match other {
            Ended::Nobody => self,
            _ => Ended::Several,
        }
    }
}

pub fn is_terminated(thread: &Thread) -> bool
    ensures { result ≡ is_empty thread.now.frames }
{
    thread.frames.top().is_none()
}
