//! The text of a term: nested records, lists with `|` and rows with `#`, and `^K` where a record leads back to one that encloses it.
#![tactic(auto)]

mod domains;
mod nesting;
mod operands;
mod printer;
mod terms;

pub use terms::{Text, term_text};
