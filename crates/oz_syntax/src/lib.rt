//! The surface tree of a program.
#![tactic(auto)]

mod phrase;

pub use phrase::Phrase;
