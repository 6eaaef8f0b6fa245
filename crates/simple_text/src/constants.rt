//! Words, literals and integers as they are written.
ghost use Rattle.std.specs.Prelude.{◌≡◌, ◌++◌, codes, if◌then◌else◌, OnOk};
ghost use Rattle.std.specs.Fmt.{decimal};
ghost use Rattle.std.specs.List.{flat_map};
ghost use Rattle.oz_language.specs.Kernels.{word_text};
ghost use Rattle.oz_language.specs.SimpleTexts.{integer_text, escaped, quoted, atom_text, literal_text, constant_text, simple_text, is_atom};

use crate::plain::{is_plain, same_bytes};
use oz_base::Words;
use oz_language::{Constant, Literal};
use std::alloc::{AllocError, Global};

/// The word with this number, or no bytes where there is none.
pub fn word_text(words: &Words, number: u32) -> &[u8]
    ensures { result.now ≡ word_text words.now number }
{
    match words.text(number) {
        Some(text) => text,
        None => &[],
    }
}

/// Whether a literal is the atom of this text.
pub fn is_atom(words: &Words, text: &[u8], literal: Literal) -> bool
    ensures { result ≡ is_atom words.now text.now literal }
{
    match literal {
        Literal::Atom(number) => same_bytes(word_text(words, number), text),
        Literal::True => false,
        Literal::False => false,
        Literal::Unit => false,
    }
}

/// Adds a byte as it stands in quotes.
fn add_escaped(byte: u8, out: &mut Vec<u8>) -> Result<(), AllocError>
    ensures { OnOk result (out.new.items ≡ out.old.items ++ escaped byte) }
{
    match byte {
        b'\n' => out.extend_from_slice(b"\\n"),
        b'\t' => out.extend_from_slice(b"\\t"),
        b'\\' => out.extend_from_slice(b"\\\\"),
        b'\'' => out.extend_from_slice(b"\\'"),
        _ => {
            out.push(byte)?;
            Ok(())
        }
    }
}

/// Adds bytes as they stand in quotes.
fn add_all_escaped(word: &[u8], out: &mut Vec<u8>) -> Result<(), AllocError>
    ensures { OnOk result (out.new.items ≡ out.old.items ++ flat_map escaped word.now) }
{
    for byte in word {
        add_escaped(*byte, out)?;
    }
    Ok(())
}

fn add_quoted(word: &[u8], out: &mut Vec<u8>) -> Result<(), AllocError>
    ensures { OnOk result (out.new.items ≡ out.old.items ++ quoted word.now) }
{
    out.push(b'\'')?;
    add_all_escaped(word, out)?;
    out.push(b'\'')?;
    Ok(())
}

/// Adds an atom, in quotes where its text would mean something else without them.
fn add_atom(word: &[u8], out: &mut Vec<u8>) -> Result<(), AllocError>
    ensures { OnOk result (out.new.items ≡ out.old.items ++ atom_text word.now) }
{
    if is_plain(word) {
        return out.extend_from_slice(word);
    }
    add_quoted(word, out)
}

/// Adds an atom, in quotes where it needs them, or `true`, `false` or `unit`. It refuses where there is no memory.
pub fn add_literal(words: &Words, literal: Literal, out: &mut Vec<u8>) -> Result<(), AllocError>
    ensures { OnOk result (out.new.items ≡ out.old.items ++ literal_text words.now literal) }
{
    match literal {
        Literal::Atom(number) => add_atom(word_text(words, number), out),
        Literal::True => out.extend_from_slice(b"true"),
        Literal::False => out.extend_from_slice(b"false"),
        Literal::Unit => out.extend_from_slice(b"unit"),
    }
}

/// Adds a number in decimal digits. It refuses where there is no memory.
pub fn add_decimal(alloc: Global, number: u128, out: &mut Vec<u8>) -> Result<(), AllocError>
    ensures { OnOk result (out.new.items ≡ out.old.items ++ decimal number) }
{
    let digits = number.to_string(alloc)?;
    out.extend_from_slice(digits.as_bytes())
}

/// Adds an integer in decimal digits, with a `~` before those of a negative one. It refuses where there is no memory.
pub fn add_integer(alloc: Global, integer: i128, out: &mut Vec<u8>) -> Result<(), AllocError>
    ensures { OnOk result (out.new.items ≡ out.old.items ++ integer_text integer) }
{
    if integer < 0 {
        out.push(b'~')?;
    }
    add_decimal(alloc, integer.unsigned_abs(), out)
}

/// Adds an integer or a literal. It refuses where there is no memory.
pub fn add_constant(
    alloc: Global,
    words: &Words,
    constant: Constant,
    out: &mut Vec<u8>,
) -> Result<(), AllocError>
    ensures { OnOk result (out.new.items ≡ out.old.items ++ constant_text words.now constant) }
{
    match constant {
        Constant::Int(integer) => add_integer(alloc, integer, out),
        Constant::Literal(literal) => add_literal(words, literal, out),
    }
}

/// Adds a literal that is the value of a term: the atom `fail` has no quotes there.
fn add_simple_literal(words: &Words, literal: Literal, out: &mut Vec<u8>) -> Result<(), AllocError>
    ensures { OnOk result (out.new.items ≡ out.old.items ++ (if is_atom words.now (codes "fail") literal then codes "fail" else literal_text words.now literal)) }
{
    if is_atom(words, b"fail", literal) {
        return out.extend_from_slice(b"fail");
    }
    add_literal(words, literal, out)
}

/// Adds an integer or a literal that is the value of a term: the atom `fail` has no quotes there. It refuses where there is no
/// memory.
pub fn add_simple(
    alloc: Global,
    words: &Words,
    constant: Constant,
    out: &mut Vec<u8>,
) -> Result<(), AllocError>
    ensures { OnOk result (out.new.items ≡ out.old.items ++ simple_text words.now constant) }
{
    match constant {
        Constant::Int(integer) => add_integer(alloc, integer, out),
        Constant::Literal(literal) => add_simple_literal(words, literal, out),
    }
}
