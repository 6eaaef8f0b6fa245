//! Where names go when a computation space is copied, and when it becomes a part of the space that it is in (Schulte 4).
#![tactic(auto)]

mod given;
mod renaming;

pub use given::{GivenOut, Kind};
pub use renaming::Renaming;
