//! Matching (CTM 2.4.5): a pattern against a variable of the store.
//!
//! A pattern is the list of its nodes, each before those inside it. A match takes them from the front, each against the
//! variable in its place, and stops where one differs or is not determined yet. So it takes as long as what it visits, and
//! memory for the variables of the pattern and for nodes inside which others stand that have further nodes behind them.
#![tactic(auto)]

mod decided;
mod left;
mod nodes;

pub use decided::{Verdict, decide, waits};
