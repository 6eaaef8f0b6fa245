//! Propagators over a store (CTM 12.3.1; Schulte 2): which of them is due, which has a variable that is not determined, and what a run
//! of one comes to.
#![tactic(auto)]

mod due;
mod intervals;
mod runs;

pub use due::{any_undecided, first_due, has_due, is_due, is_undecided, seen};
pub use runs::{Run, run_of};
