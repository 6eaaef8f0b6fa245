//! The commands: what the words of the command line ask for.
//!
//! The definitions are in `Commands`.
#![tactic(auto)]

mod command;

pub use command::Command;
