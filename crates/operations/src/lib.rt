//! What operations on computation spaces come to, once the state of the space is known (CTM 12.5; Schulte 4).
//!
//! A statement answers that it operates on a space. `operated` says what that comes to by the state of the space, and
//! `operated_ready` whether there is a step, and makes nothing.
#![tactic(auto)]

mod asking;
mod committing;
mod ended;
mod injecting;
mod outcome;
mod readiness;
mod reading;
mod resolving;
mod states;
mod words;

pub use outcome::Outcome;
pub use readiness::operated_ready;
pub use reading::{COPY_LIMIT, read_term};
pub use resolving::operated;
