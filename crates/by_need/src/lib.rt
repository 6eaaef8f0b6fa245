//! By-need computations (CTM 4.5): which triggers are needed, and what follows.
#![tactic(auto)]

mod rounds;
mod triggers;

pub use rounds::fire;
pub use triggers::needed;
