//! From expressions to the statements that make a name their value.
#![tactic(auto)]

mod expressions;

pub use expressions::{
    anything, apply, chain, filled, inner_value, list, operation, record, select, string,
    with_result,
};
