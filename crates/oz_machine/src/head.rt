//! What is known of the head of the queue before its step.
ghost use Rattle.std.specs.Prelude.{◌≡◌};

use builtins::Answer;

/// What was found of the statement on top of the stack of the head of the queue, before the head steps.
#[derive(Drop)]
pub enum Head {
    /// Nothing.
    Unknown,
    /// It is the one with this number, a declaration.
    Declares { number: u32 },
    /// It answers this, where the head's space is at the place.
    Answers { place: usize, answer: Answer },
}

/// What was found takes the place of what was known.
pub fn note(known: &mut Head, found: Head)
    ensures { known.new ≡ found }
{
    *known = found;
}
