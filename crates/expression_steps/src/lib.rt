//! The reader's steps in expressions and patterns: operands, operators, records, lists and calls.
//!
//! Each step takes one token, or the end of the text, and does to what is open what the machine of reader_law does there.
//! `operands` has how expressions and patterns begin, `operators` what stands between them, `records` and `lists` what comes
//! behind a field, an element, a part of a call and what stands in parentheses.
#![tactic(auto)]

mod lists;
mod operands;
mod operators;
mod records;

pub use lists::{behind_element, behind_part, close_paren, next_element, next_part, raised};
pub use operands::{access_begins, expression_begins, feature_begins, operand, operand_in};
pub use operators::{Reduced, is_operator, reduce, shift_in};
pub use records::{behind_field, behind_value, next_field};
