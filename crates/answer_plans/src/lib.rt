//! What each answer to a program is made of: its cause with what is to be written for it, the run of the top with which it begins, and the
//! line where the budget is exceeded.
#![tactic(auto)]

mod plan;

pub use plan::{Plan, add_spent, run_top};
