//! Reads the program of a text.
//!
//! `steps` says what one more token does to the constructs that are open, by what is innermost: those that open_constructs keeps,
//! with the steps of each kind of construct in crates of their own. `reader` goes over the tokens of a text once, with their depth
//! beside it.
#![tactic(auto)]

mod error;
mod program;
mod reader;
mod steps;

pub use error::ReadError;
pub use program::Program;
pub use reader::read_program;
