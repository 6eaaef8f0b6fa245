//! Recomputation (Schulte, LNCS 2302): from where a search starts, it goes to any node of its tree by the node's path.
#![tactic(auto)]

mod board;
mod bounded;
mod explorer;
mod frozen;
mod placed;
mod source;
mod waypoint;

pub use board::Board;
pub use bounded::FrozenBest;
pub use explorer::{Explorer, Solved};
pub use frozen::Frozen;
pub use placed::{Choice, Found, Start, solve_root};
pub use source::Source;
