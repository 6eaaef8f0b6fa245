//! The leaves of the search of a script, by one worker or by many.
#![tactic(auto)]

mod script;

pub use script::leaves;
