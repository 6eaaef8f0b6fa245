//! Texts of integers, atoms and other simple values, the keys of fields, and the form in which a record is written.
#![tactic(auto)]

mod constants;
mod forms;
mod keys;
mod plain;

pub use constants::{
    add_constant, add_decimal, add_integer, add_literal, add_simple, is_atom, word_text,
};
pub use forms::{form_of, is_bars, is_chain};
pub use keys::add_key;
