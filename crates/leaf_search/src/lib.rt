//! The search for all leaves by one worker, depth first.
#![tactic(auto)]

mod open;
mod search;

pub use search::depth_first;
