//! What the acts of statements do to the layers of all spaces (CTM 2.4, 5, 6): a thread's statement is taken off its stack, its space is
//! told what the act says, and the changes are made that come with that.
#![tactic(auto)]

mod acts;
mod numbers;
mod objects;

pub use acts::{act, give_term, is_quiet, started, take_off};
pub use numbers::next_of;
