//! What `all`, `run` and `kernel` answer for a program: they run its top and then search the tree of its script, or stop there, or write its
//! kernel.
#![tactic(auto)]

mod answers;

pub use answers::{all_answer, kernel_answer, run_answer};
