//! The reader's steps at the heads and the ends of constructs with bodies.
//!
//! `heads` has the heads of procedures and functions, and `conditions` what comes behind conditions, subjects and patterns; then a
//! body begins. `closing` ends it, and `bodies` has what ends with a body.
#![tactic(auto)]

mod bodies;
mod closing;
mod conditions;
mod heads;

pub use closing::close;
pub use conditions::{caught, claused, subjected, tested};
pub use heads::{is_named_head, next_head, open_head};
