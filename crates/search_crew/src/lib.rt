//! The crew of a search: many workers that explore one tree, for any kind of search. They share one pool of open nodes, and a board
//! of choices that were solved: each goes on from the node before the one that it takes.
#![tactic(auto)]

mod crew;
mod crossing;
mod explore;
mod patience;
mod whole;

pub use crossing::{best_crosses, plain_crosses};
pub use whole::explored;
