//! What stands between, before and behind the fields of a record, and before each of them.
ghost use Rattle.std.specs.Prelude.{◌≡◌, ◌++◌, OnOk, IfOk};
ghost use Rattle.term_text.specs.Operands.{gap_of, gap_before, opening, ending, left_paren, right_paren, keyed, first_key, next_behind, features_behind};

use oz_base::Words;
use oz_language::{Constant, Form, Literal};
use simple_text::{add_key, add_literal};
use std::alloc::{AllocError, Global};

fn gap_of(form: Form) -> &'static [u8]
    ensures { result.now ≡ gap_of form }
{
    match form {
        Form::Bars => b"|",
        Form::Hashes => b"#",
        Form::Other => b" ",
    }
}

/// What stands before a field, the first or a later one.
pub fn gap_before(form: Form, first: bool) -> &'static [u8]
    ensures { result.now ≡ gap_before form first }
{
    if first {
        return b"";
    }
    gap_of(form)
}

/// Adds what stands before all fields.
pub fn add_opening(
    words: &Words,
    form: Form,
    label: Literal,
    out: &mut Vec<u8>,
) -> Result<(), AllocError>
    ensures { OnOk result (out.new.items ≡ out.old.items ++ opening words.now form label) }
{
    match form {
        Form::Bars => Ok(()),
        Form::Hashes => Ok(()),
        Form::Other => {
            add_literal(words, label, out)?;
            out.push(b'(')?;
            Ok(())
        }
    }
}

/// What stands behind all fields.
pub fn ending(form: Form) -> &'static [u8]
    ensures { result.now ≡ ending form }
{
    match form {
        Form::Bars => b"",
        Form::Hashes => b"",
        Form::Other => b")",
    }
}

/// `(` before an operand that stands in parentheses.
pub fn left_paren(enclosed: bool) -> &'static [u8]
    ensures { result.now ≡ left_paren enclosed }
{
    if enclosed {
        return b"(";
    }
    b""
}

/// `)` behind an operand that stands in parentheses.
pub fn right_paren(enclosed: bool) -> &'static [u8]
    ensures { result.now ≡ right_paren enclosed }
{
    if enclosed {
        return b")";
    }
    b""
}

/// The features that stand before fields as keys.
pub fn keyed(form: Form, features: &[Constant]) -> &[Constant]
    ensures { result.now ≡ keyed form features.now }
{
    match form {
        Form::Bars => &[],
        Form::Hashes => &[],
        Form::Other => features,
    }
}

/// Adds the key of the next field, if it has a feature and needs one: `next` is the next feature that is left out. It gives
/// the one after that and the features of the fields behind, and refuses where there is no memory.
pub fn add_first_key<'a>(
    alloc: Global,
    words: &Words,
    features: &'a [Constant],
    next: u64,
    out: &mut Vec<u8>,
) -> Result<(u64, &'a [Constant]), AllocError>
    ensures bytes { OnOk result (out.new.items ≡ out.old.items ++ first_key words.now next features.now) }
    ensures next { IfOk result (λ behind. behind.0 ≡ next_behind next features.now) }
    ensures features { IfOk result (λ behind. behind.1.now ≡ features_behind features.now) }
{
    match features {
        [] => Ok((next, features)),
        [feature, rest @ ..] => {
            let after = add_key(alloc, words, *feature, next, out)?;
            Ok((after, rest))
        }
    }
}
