//! The search for all leaves by many workers: those that the history of the search has at its end.
#![tactic(auto)]

mod ending;
mod search;

pub use search::search_all;
