//! What stands in a computation space, under the names that it has in a copy or in the parent.
#![tactic(auto)]

mod laws;
mod renamed;
mod threads;
mod values;

pub use laws::{merging_as_defined, moving_as_defined};
pub use renamed::Renamed;
