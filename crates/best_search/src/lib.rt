//! The search for a best solution by many workers, and what it has found (branch and bound: Schulte, LNCS 2302).
#![tactic(auto)]

mod ending;
mod search;

pub use ending::{Found, found_in};
pub use search::search_best;
