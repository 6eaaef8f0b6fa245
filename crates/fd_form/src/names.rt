//! The names, integers and atoms of a script. Parentheses round them leave nothing.
ghost use Rattle.std.specs.Prelude.{◌≡◌};
ghost use Rattle.oz_syntax.specs.View.{view};
ghost use Rattle.fd_form.specs.Parts.{atom_of, integer_of, is_named, name_of};
ghost use Rattle.fd_form.specs.FdScripts.{is_of_fd};
ghost use Rattle.fd_form.specs.Steps.{is_atom};

use oz_language::Literal;
use oz_syntax::Phrase;

/// The number of the word `Script`.
pub const SCRIPT: u32 = 0;

/// That of `FD`.
pub const FD: u32 = 2;

/// That of `distinct`.
pub const DISTINCT: u32 = 57;

/// That of `distribute`.
pub const DISTRIBUTE: u32 = 58;

/// That of the rule `naive`.
pub const NAIVE: u32 = 59;

/// That of the rule `ff`.
pub const FF: u32 = 60;

/// That of the rule `split`.
pub const SPLIT: u32 = 61;

/// The name that a phrase is.
pub fn name_of(phrase: &Phrase) -> Option<u32>
    ensures { result ≡ name_of (view phrase.now) }
{
    match phrase {
        Phrase::Var { name, .. } => Some(*name),
        Phrase::Paren { inner, .. } => match inner.as_slice() {
            [value] => name_of(value),
            [] => None,
            [_, _, ..] => None,
        },
        _ => None,
    }
}

/// The integer that a phrase is.
pub fn integer_of(phrase: &Phrase) -> Option<i128>
    ensures { result ≡ integer_of (view phrase.now) }
{
    match phrase {
        Phrase::Int { value, .. } => Some(*value),
        Phrase::Paren { inner, .. } => match inner.as_slice() {
            [value] => integer_of(value),
            [] => None,
            [_, _, ..] => None,
        },
        _ => None,
    }
}

/// The atom that a phrase is.
pub fn atom_of(phrase: &Phrase) -> Option<u32>
    ensures { result ≡ atom_of (view phrase.now) }
{
    match phrase {
        Phrase::Literal {
            literal: Literal::Atom(word),
            ..
        } => Some(*word),
        Phrase::Paren { inner, .. } => match inner.as_slice() {
            [value] => atom_of(value),
            [] => None,
            [_, _, ..] => None,
        },
        _ => None,
    }
}

/// Whether a phrase is the variable of this name.
pub fn is_named(name: u32, phrase: &Phrase) -> bool
    ensures { result ≡ is_named name (view phrase.now) }
{
    match name_of(phrase) {
        Some(other) => name == other,
        None => false,
    }
}

/// Whether a phrase is this atom.
fn is_atom(word: u32, phrase: &Phrase) -> bool
    ensures { result ≡ is_atom word (view phrase.now) }
{
    match atom_of(phrase) {
        Some(other) => word == other,
        None => false,
    }
}

/// Whether a phrase is the procedure of this name in `FD`.
pub fn is_of_fd(word: u32, phrase: &Phrase) -> bool
    ensures { result ≡ is_of_fd word (view phrase.now) }
{
    match phrase {
        Phrase::Select { record, feature } => is_named(FD, record) && is_atom(word, feature),
        Phrase::Paren { inner, .. } => match inner.as_slice() {
            [value] => is_of_fd(word, value),
            [] => false,
            [_, _, ..] => false,
        },
        _ => false,
    }
}
