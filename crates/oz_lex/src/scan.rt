//! The longest token at the front of a text.
ghost use Rattle.std.specs.Prelude.{◌≡◌, ◌≤◌, ◌&&◌, true, false, length, take, nat_le};
ghost use Rattle.std.specs.List.{prefix_len};
ghost use Rattle.oz_language.specs.Tokens.{is_lower, is_digit, goes_on_word, is_symbol, IsLongest};
ghost use Rattle.oz_lex.specs.Scanning.{begins, begins_with, begins_paren, is_tilde, is_mark, IsTokenAt, IsFront};

use crate::bytes;
use crate::quotes::{begins_with, char_len, quoted_len};
use oz_language::Sort;

/// The longest token at the front, and how many bytes it has. Or how far the byte is away for which there is none.
pub fn token_at(text: &[u8]) -> Result<(Sort, usize), usize>
    ensures { IsFront text.now result }
{
    if begins_with(b'\'', text) {
        return quoted_at(text);
    }
    if begins_with(b'"', text) {
        return string_at(text);
    }
    match bare_at(text) {
        Some(token) => Ok(token),
        None => Err(0),
    }
}

/// The atom in quotes at the front, or the label where `(` stands behind it.
fn quoted_at(text: &[u8]) -> Result<(Sort, usize), usize>
    requires { begins_with 39 text.now ≡ true }
    ensures { IsFront text.now result }
{
    let len = quoted_len(b'\'', text)?;
    if begins_paren(&text[len..]) {
        return Ok((Sort::Label, len + 1));
    }
    Ok((Sort::Quoted, len))
}

/// The string at the front.
fn string_at(text: &[u8]) -> Result<(Sort, usize), usize>
    requires { begins_with 34 text.now ≡ true }
    ensures { IsFront text.now result }
{
    let len = quoted_len(b'"', text)?;
    Ok((Sort::String, len))
}

/// The longest token at the front of a text that does not begin with a quote.
fn bare_at(text: &[u8]) -> Option<(Sort, usize)>
    requires atom { begins_with 39 text.now ≡ false }
    requires string { begins_with 34 text.now ≡ false }
    ensures { IsTokenAt text.now result }
{
    let first = *text.first()?;
    if bytes::is_upper(first) {
        return Some((Sort::Var, word_len(text)));
    }
    if bytes::is_lower(first) {
        return Some(word_at(text));
    }
    if bytes::is_digit(first) {
        return Some((Sort::Int, digit_len(text)));
    }
    if first == b'~' {
        return negative_at(text);
    }
    if first == b'&' {
        return char_at(text);
    }
    symbol_at(text)
}

/// How many bytes at the front go on a word.
fn word_len(text: &[u8]) -> usize
    ensures value { result ≡ prefix_len goes_on_word text.now }
    ensures within { result ≤ length text.now }
{
    for (place, byte) in text.iter().enumerate() {
        if !bytes::goes_on_word(*byte) {
            return place;
        }
    }
    text.len()
}

/// How many digits stand at the front.
fn digit_len(text: &[u8]) -> usize
    ensures value { result ≡ prefix_len is_digit text.now }
    ensures within { result ≤ length text.now }
{
    for (place, byte) in text.iter().enumerate() {
        if !bytes::is_digit(*byte) {
            return place;
        }
    }
    text.len()
}

/// The word at the front, or the label where `(` stands behind it.
fn word_at(text: &[u8]) -> (Sort, usize)
    requires { begins is_lower text.now ≡ true }
    ensures { IsLongest text.now result.1 result.0 }
{
    let len = word_len(text);
    if begins_paren(&text[len..]) && !bytes::is_reserved(&text[..len]) {
        return (Sort::Label, len + 1);
    }
    (Sort::Word, len)
}

fn begins_paren(text: &[u8]) -> bool
    ensures { result ≡ begins_paren text.now }
{
    begins_with(b'(', text)
}

/// The integer at the front of a text that begins with `~`.
fn negative_at(text: &[u8]) -> Option<(Sort, usize)>
    requires { begins is_tilde text.now ≡ true }
    ensures { IsTokenAt text.now result }
{
    let digits = digit_len(&text[1..]);
    if digits == 0 {
        return None;
    }
    Some((Sort::Int, 1 + digits))
}

/// The character at the front of a text that begins with `&`.
fn char_at(text: &[u8]) -> Option<(Sort, usize)>
    requires { begins_with 38 text.now ≡ true }
    ensures { IsTokenAt text.now result }
{
    let len = char_len(&text[1..]);
    if len == 0 {
        return None;
    }
    Some((Sort::Char, 1 + len))
}

/// The symbol at the front.
fn symbol_at(text: &[u8]) -> Option<(Sort, usize)>
    requires { begins is_mark text.now ≡ true }
    ensures { IsTokenAt text.now result }
{
    if begins_symbol(text, 3) {
        return Some((Sort::Symbol, 3));
    }
    if begins_symbol(text, 2) {
        return Some((Sort::Symbol, 2));
    }
    if begins_symbol(text, 1) {
        return Some((Sort::Symbol, 1));
    }
    None
}

/// Whether the first `len` bytes are a symbol.
fn begins_symbol(text: &[u8], len: usize) -> bool
    ensures { result ≡ (nat_le len (length text.now) && is_symbol (take len text.now)) }
{
    len <= text.len() && bytes::is_symbol(&text[..len])
}
