//! Equality of rational trees: whether a store decides that two variables are equal.
#![tactic(auto)]

mod affected;
mod at_once;
mod equality;

pub use equality::{Equality, test};
