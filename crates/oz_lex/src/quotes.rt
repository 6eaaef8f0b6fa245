//! Texts in quotes, and characters.
ghost use Rattle.std.specs.Prelude.{◌≡◌, ◌≤◌, ◌+◌, true, drop, length};
ghost use Rattle.oz_lex.specs.Scanning.{begins_with, char_length, escape_length, step_length, is_cut_off, GoesOn, IsQuotedAt};

use crate::bytes::{is_escape, is_printable, rest_of};

/// How many bytes the text in quotes at the front has, with its quotes. Or how far the first byte is away that may not stand in
/// quotes: the opening quote, where the text ends before they are closed.
pub fn quoted_len(quote: u8, text: &[u8]) -> Result<usize, usize>
    requires { begins_with quote text.now ≡ true }
    ensures { IsQuotedAt quote text.now result }
{
    let inside = rest_of(text, 1);
    let len = inner_len(quote, inside);
    let behind = rest_of(inside, len);
    if begins_with(quote, behind) {
        return Ok(len + 2);
    }
    if is_cut_off(behind) {
        return Err(0);
    }
    Err(len + 1)
}

/// How many bytes at the front go on a text in quotes.
fn inner_len(quote: u8, text: &[u8]) -> usize
    ensures goes_on { GoesOn quote text.now result }
    ensures stops { step_length quote (drop result text.now) ≡ 0 }
{
    let mut len = 0;
    let mut step = step_len(quote, text);
    while step > 0 {
        len += step;
        step = step_len(quote, &text[len..]);
    }
    len
}

/// How long the byte or the escape at the front is; 0 where none may stand there, and at the quote.
fn step_len(quote: u8, text: &[u8]) -> usize
    ensures value { result ≡ step_length quote text.now }
    ensures within { result ≤ length text.now }
{
    if begins_with(quote, text) {
        return 0;
    }
    char_len(text)
}

/// How long the byte or the escape at the front is; 0 where there is none.
pub fn char_len(text: &[u8]) -> usize
    ensures value { result ≡ char_length text.now }
    ensures within { result ≤ length text.now }
{
    match text {
        [] => 0,
        [b'\\', rest @ ..] => escape_len(rest),
        [byte, ..] => { if is_printable(*byte) { 1 } else { 0 } }
    }
}

/// How long an escape is, by what follows its `\`; 0 where it is none.
fn escape_len(text: &[u8]) -> usize
    ensures value { result ≡ escape_length text.now }
    ensures within { result ≤ length text.now + 1 }
{
    match text.first() {
        Some(byte) if is_escape(*byte) => 2,
        _ => 0,
    }
}

/// Whether the text ends here, or right behind a `\`.
fn is_cut_off(text: &[u8]) -> bool
    ensures { result ≡ is_cut_off text.now }
{
    match text {
        [] => true,
        [byte] => *byte == b'\\',
        _ => false,
    }
}

/// Whether this byte comes first.
pub fn begins_with(byte: u8, text: &[u8]) -> bool
    ensures { result ≡ begins_with byte text.now }
{
    match text.first() {
        None => false,
        Some(first) => *first == byte,
    }
}
