//! The call that does all that the program does.
#![tactic(auto)]

mod answers;
mod call;

pub use call::{Outcome, oz_call};
