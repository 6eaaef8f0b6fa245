//! From the tree of a program to its kernel.
//!
//! `phrases` tells phrases apart by what they are, `statements` has those without bodies of their own, and `programs` the loop over
//! what is left to be done.
#![tactic(auto)]

mod phrases;
mod programs;
mod statements;

pub use programs::translate;
