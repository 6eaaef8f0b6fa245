//! Reads the words of the command line.
//!
//! `commands` tells clap of the commands and their options; `reader` reads the command from what clap finds in the words.
#![tactic(auto)]

mod commands;
mod reader;

pub use reader::read_command;
