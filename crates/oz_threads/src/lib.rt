//! The threads of the machine: which of them can step by what their space sees alone, and the queue in which those that can step wait for
//! their turn.
#![tactic(auto)]

mod members;
mod queue;
mod readiness;

pub use queue::Queue;
pub use readiness::{is_step, ready_on_top, ready_where, steps_where};
