//! The relations of finite domains in a kernel: their sums, and the products of their sides.
#![tactic(auto)]

mod relations;

pub use relations::{behind_factor, behind_side, between, relation};
