//! The record of a script's answer.
ghost use Rattle.std.specs.Prelude.{◌≡◌, IfOk};
ghost use Rattle.oz_language.specs.Grammar.{of_list};
ghost use Rattle.oz_syntax.specs.View.{view, views};
ghost use Rattle.fd_form.specs.Parts.{each, field_name, record_of};
ghost use Rattle.fd_form.specs.Steps.{record_by};

use crate::names::name_of;
use kernel_patterns::{in_arity_order, keys_of, zipped};
use oz_base::{Sequence, Words};
use oz_language::{Constant, Literal};
use oz_syntax::Phrase;
use std::alloc::{AllocError, Global};

/// The name of the variable that a field is, with its key or without one.
fn field_name(field: &Phrase) -> Option<u32>
    ensures { result ≡ field_name (view field.now) }
{
    match field {
        Phrase::Keyed { value, .. } => name_of(value),
        _ => name_of(field),
    }
}

/// The names of all fields, if each is a variable.
fn field_names(alloc: Global, fields: &[Phrase]) -> Result<Option<Sequence<u32>>, AllocError>
    ensures { IfOk result (λ names. names ≡ each field_name (of_list (views fields.now))) }
{
    let mut names = Sequence::new(alloc);
    'fields: for field in fields {
        let Some(name) = field_name(field) else {
            return Ok(None);
        };
        names.push(name)?;
    }
    Ok(Some(names))
}

/// A record whose fields are variables.
fn record(
    alloc: Global,
    words: &Words,
    label: Literal,
    fields: &[Phrase],
) -> Result<Option<(Literal, Sequence<(Constant, u32)>)>, AllocError>
    ensures { IfOk result (λ found. found ≡ record_by words.now label (of_list (views fields.now))) }
{
    let Some(names) = field_names(alloc, fields)? else {
        return Ok(None);
    };
    let keys = keys_of(alloc, fields)?;
    let fields = in_arity_order(words, zipped(alloc, &keys, names)?)?;
    Ok(Some((label, fields)))
}

/// The label of a record whose fields are variables, or of one without fields, and the name of each field in the order of arities.
pub fn record_of(
    alloc: Global,
    words: &Words,
    phrase: &Phrase,
) -> Result<Option<(Literal, Sequence<(Constant, u32)>)>, AllocError>
    ensures { IfOk result (λ found. found ≡ record_of words.now (view phrase.now)) }
{
    match phrase {
        Phrase::Record { label, fields, .. } => record(alloc, words, *label, fields),
        Phrase::Literal { literal, .. } => Ok(Some((*literal, Sequence::new(alloc)))),
        Phrase::Paren { inner, .. } => match inner.as_slice() {
            [value] => record_of(alloc, words, value),
            [] => Ok(None),
            [_, _, ..] => Ok(None),
        },
        _ => Ok(None),
    }
}
