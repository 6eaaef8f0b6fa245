//! Which propagators of a space may be due (CTM 12.3.1; Schulte 2), kept from tell to tell.
#![tactic(auto)]

mod candidates;
mod keys;
mod tells;
mod watch;
mod watched;

pub use watch::{Foresight, Watch};
