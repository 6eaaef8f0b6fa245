//! The text of a kernel program: the statements that a translation gives, with the identifiers that it made.
#![tactic(auto)]

mod entries;
mod heads;
mod names;
mod operations;
mod patterns;
mod program;
mod records;
mod sums;

pub use program::kernel_text;
