//! The writer of a kernel: the statements that are written, and what is left to be done.
//!
//! `tasks` has what may be left, with the bodies that are still to end, and `goals` what a phrase is written for. `writer` puts
//! tasks in front of what is left, and writes statements; what it comes to with all that is left is its outcome (`Tasks`).
#![tactic(auto)]

mod goals;
mod tasks;
mod writer;

pub use goals::Goal;
pub use tasks::{Closing, Last, Task};
pub use writer::Writer;
