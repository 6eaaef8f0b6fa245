//! The patterns and records of a kernel, with their fields in the order of arities.
//!
//! `arities` sorts fields by their features, `records` gives fields their features, and `patterns` puts a pattern into the list of
//! its nodes.
#![tactic(auto)]

mod arities;
mod patterns;
mod records;

pub use arities::in_arity_order;
pub use patterns::pieces;
pub use records::{keys_of, record_bound, unzipped, zipped};
