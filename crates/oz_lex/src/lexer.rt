//! The tokens of a whole text.
ghost use Rattle.std.specs.Prelude.{◌≡◌, IfOk, IfErr};
ghost use Rattle.oz_language.specs.Tokens.{Lexes, Whole, is_broken_number, begins_fraction};
ghost use Rattle.oz_lex.specs.Lexing.{IsBad, OneReading};

use crate::bytes::{is_digit, rest_of};
use crate::gaps::gap_len;
use crate::scan::token_at;
use oz_language::{Lexeme, Sort};
use std::alloc::{AllocError, AllocFailed, Global};

/// Why a text has no tokens.
#[derive(Clone, Copy, Debug, PartialEq, Eq)]
pub enum LexError {
    /// The byte at this place, counted from 0, belongs to no token.
    BadByte { at: usize },
    /// Memory ran out.
    Memory,
}

impl From<AllocError> for LexError {
    ghost use Rattle.oz_lex.specs.declared.lexer.LexError.TheVariants.{Memory};

    ghost from_gives = { λ _ e. e ≡ Memory };

    fn from(_error: AllocError) -> LexError {
        LexError::Memory
    }
}

impl<T: Drop> From<AllocFailed<T>> for LexError {
    ghost use Rattle.oz_lex.specs.declared.lexer.LexError.TheVariants.{Memory};

    ghost from_gives = { λ _ e. e ≡ Memory };

    fn from(_error: AllocFailed<T>) -> LexError {
        LexError::Memory
    }
}

/// The tokens of a text, each the longest that fits, with blanks and comments between them. Or the first byte that belongs to
/// no token: one with which none begins, the `/` of a comment that does not end, the point of a fraction behind an integer, a
/// byte that may not stand in quotes, or a quote that nothing closes.
///
/// It takes the time of reading the text once.
pub fn lexemes(alloc: Global, text: &[u8]) -> Result<Vec<Lexeme>, LexError>
    ensures found { IfOk result (λ ls. Lexes text.now 0 ls.items Whole) }
    ensures bad { IfErr result (IsBad text.now) }
{
    let mut lexemes = Vec::new(alloc);
    let mut at = 0;
    while at < text.len() {
        let rest = rest_of(text, at);
        let gap = gap_len(rest);
        if gap > 0 {
            at += gap;
        } else {
            match token_at(rest) {
                Err(away) => return Err(LexError::BadByte { at: at + away }),
                Ok((sort, len)) => {
                    if is_broken_number(sort, rest_of(rest, len)) {
                        return Err(LexError::BadByte { at: at + len });
                    }
                    lexemes.push(Lexeme { sort, at, len })?;
                    at += len;
                }
            }
        }
    }
    Ok(lexemes)
}

/// A text has one reading, so its tokens, or the place of its first bad byte, are the only ones.
pub fn one_reading()
    ensures { OneReading }
{}

/// Whether what stands behind a token makes it a number with a fraction.
fn is_broken_number(sort: Sort, rest: &[u8]) -> bool
    ensures { result ≡ is_broken_number sort rest.now }
{
    match sort {
        Sort::Int => begins_fraction(rest),
        _ => false,
    }
}

/// Whether a point and a digit come first.
fn begins_fraction(text: &[u8]) -> bool
    ensures { result ≡ begins_fraction text.now }
{
    match text {
        [point, digit, ..] => *point == b'.' && is_digit(*digit),
        _ => false,
    }
}
