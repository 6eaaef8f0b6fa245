//! From constructs with bodies to their statements, for the value of a name or for none.
#![tactic(auto)]

mod constructs;

pub use constructs::{
    alternatives, body, construct, each, gather, handled, remaining_arms, remaining_clauses,
    valued_body, valued_last,
};
