//! Tokens of a text.
//!
//! `lexemes` splits a text into its tokens, each the longest that fits; `token_of` gives a token as the grammar sees it,
//! with the words of the text numbered. Each takes the time of reading its bytes.
#![tactic(auto)]

mod bytes;
mod gaps;
mod integers;
mod lexer;
mod meanings;
mod quotes;
mod scan;
mod tokens;

pub use lexer::{LexError, lexemes, one_reading};
pub use meanings::unquoted;
pub use tokens::{first_words, token_of};
