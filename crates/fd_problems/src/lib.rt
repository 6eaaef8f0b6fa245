//! Finite-domain problems (CTM 12.3; Schulte, LNCS 2302, chapter 2): variables, what is said of them, and how they are distributed.
//!
//! The definitions in `specs/Problems` say what the assignments of a problem are.
#![tactic(auto)]

mod problem;

pub use problem::{Distribution, Item, Problem, Term};
