//! What stands in quotes, and the bytes that escapes stand for.
ghost use Rattle.std.specs.Prelude.{◌≡◌, ◌++◌, ◌&&◌, ◌==◌, not, drop, IfOk, OnOk, option_to_list};
ghost use Rattle.std.specs.Ffi.{without_last};
ghost use Rattle.oz_language.specs.Wording.{escape_value, meant, unquoted, char_value};
ghost use Rattle.oz_lex.specs.Lexing.{has_escape, meant_byte};

use std::alloc::{AllocError, Global};

/// The byte of `&` and a character.
pub fn char_value(bytes: &[u8]) -> u8
    ensures { result ≡ char_value bytes.now }
{
    match bytes {
        [_, byte] => *byte,
        [_, _, escaped, ..] => escape_value(*escaped),
        _ => 0,
    }
}

/// The byte that an escape stands for, by the byte behind its `\`.
fn escape_value(byte: u8) -> u8
    ensures { result ≡ escape_value byte }
{
    match byte {
        b'n' => b'\n',
        b't' => b'\t',
        _ => byte,
    }
}

/// What stands between the quotes.
pub fn inside_of(bytes: &[u8]) -> &[u8]
    ensures { result.now ≡ without_last (drop 1 bytes.now) }
{
    match bytes {
        [] => bytes,
        [_, rest @ ..] => without_last(rest),
    }
}

/// All bytes but the last.
pub fn without_last(bytes: &[u8]) -> &[u8]
    ensures { result.now ≡ without_last bytes.now }
{
    match bytes {
        [] => bytes,
        [rest @ .., _] => rest,
    }
}

/// Whether an escape stands in these bytes.
pub fn has_escape(bytes: &[u8]) -> bool
    ensures { result ≡ has_escape bytes.now }
{
    bytes.iter().any(|byte| *byte == b'\\')
}

/// What stands in quotes, with each escape read. It refuses where there is no memory.
pub fn unquoted(alloc: Global, bytes: &[u8]) -> Result<Vec<u8>, AllocError>
    ensures { IfOk result (λ word. word.items ≡ unquoted bytes.now) }
{
    meant(alloc, inside_of(bytes))
}

/// The bytes with each escape read.
pub fn meant(alloc: Global, bytes: &[u8]) -> Result<Vec<u8>, AllocError>
    ensures { IfOk result (λ word. word.items ≡ meant bytes.now) }
{
    let mut word = Vec::new(alloc);
    let mut behind = false;
    for byte in bytes {
        push_some(&mut word, meant_byte(behind, *byte))?;
        behind = begins_escape(behind, *byte);
    }
    Ok(word)
}

/// Whether an escape begins with this byte, which may stand behind a `\` itself.
fn begins_escape(behind: bool, byte: u8) -> bool
    ensures { result ≡ (not behind && (byte == 92)) }
{
    !behind && byte == b'\\'
}

/// The byte that this one gives, which may stand behind a `\`. The `\` itself gives none.
fn meant_byte(behind: bool, byte: u8) -> Option<u8>
    ensures { result ≡ meant_byte behind byte }
{
    if behind {
        return Some(escape_value(byte));
    }
    if byte == b'\\' {
        return None;
    }
    Some(byte)
}

fn push_some(word: &mut Vec<u8>, byte: Option<u8>) -> Result<(), AllocError>
    ensures { OnOk result (word.new.items ≡ word.old.items ++ option_to_list byte) }
{
    match byte {
        None => Ok(()),
        Some(byte) => Ok(word.push(byte)?),
    }
}
