//! What the statement on top of a thread's stack answers (CTM 2.4, 2.7, 4.1), and whether it can step.
//!
//! `answer` says what a step does, in a time that grows with its operands and with the bodies that go on alone. `ready` says
//! whether there is a step: it looks at what `answer` looks at, and builds nothing.
#![tactic(auto)]

mod alternatives;
mod branches;
mod calls;
mod frames;
mod posting;
mod readiness;
mod statement;
mod variables;

pub use alternatives::{Chosen, alternative};
pub use frames::frames_of;
pub use readiness::ready;
pub use statement::answer;
pub use variables::bound;
