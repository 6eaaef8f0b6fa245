//! The fields of records, by their features.
ghost use Rattle.std.specs.Prelude.{◌≡◌, ◌<◌, ◌^◌, map, length, slice_get, IfOk, OnOk};
ghost use Rattle.std.specs.List.{zip};
ghost use Rattle.oz_language.specs.Grammar.{of_list};
ghost use Rattle.oz_language.specs.Kernels.{statement_at};
ghost use Rattle.oz_language.specs.Translation.{keys_of, record_bound, record_or_label};
ghost use Rattle.oz_language.specs.declared.kernel.Constant.{Constant};
ghost use Rattle.oz_syntax.specs.View.{view, views};
ghost use Rattle.kernel_patterns.specs.Keys.{key_of, feature_or, place_after, with_field};

use crate::arities::in_arity_order;
use oz_base::{Sequence, Words};
use oz_language::{Constant, Identifier, Literal, Statement};
use oz_syntax::Phrase;
use std::alloc::{AllocError, Global};

/// The key of a field that has one.
fn key_of(field: &Phrase) -> Option<Constant>
    ensures { result ≡ key_of (view field.now) }
{
    match field {
        Phrase::Keyed { key, .. } => Some(*key),
        _ => None,
    }
}

/// The feature of a field: its key, or the place among the fields that have none.
fn feature_or(place: u64, key: Option<Constant>) -> Constant
    ensures { result ≡ feature_or place key }
{
    match key {
        Some(key) => key,
        None => Constant::Int(i128::from(place)),
    }
}

/// The place of the next field that has no key.
fn place_after(place: u64, key: Option<Constant>) -> u64
    requires { place < 2 ^ 63 }
    ensures { result ≡ place_after place key }
{
    match key {
        Some(_) => place,
        None => place + 1,
    }
}

/// The features of fields: their keys, and 1, 2 and so on for those that have none.
pub fn keys_of(alloc: Global, fields: &[Phrase]) -> Result<Sequence<Constant>, AllocError>
    ensures { IfOk result (λ keys. keys ≡ keys_of (of_list (views fields.now))) }
{
    let mut keys = Sequence::new(alloc);
    let mut place = 1;
    'fields: for field in fields {
        let key = key_of(field);
        keys.push(feature_or(place, key))?;
        place = place_after(place, key);
    }
    Ok(keys)
}

/// Adds what the next field has, with its feature. There is nothing to add where the features are used up.
fn push_field<A: Drop>(
    fields: &mut Sequence<(Constant, A)>,
    keys: &Sequence<Constant>,
    value: A,
) -> Result<(), AllocError>
    ensures { OnOk result (fields.new ≡ with_field (slice_get keys.now (length fields.old)) fields.old value) }
{
    match keys.as_slice().get(fields.len()) {
        None => Ok(()),
        Some(key) => fields.push((*key, value)),
    }
}

/// Each feature with what the field has.
#[tactic(auto, using(crate::proofs::Fields::zip_more, crate::proofs::Fields::zip_none))]
pub fn zipped<A: Drop>(
    alloc: Global,
    keys: &Sequence<Constant>,
    values: Sequence<A>,
) -> Result<Sequence<(Constant, A)>, AllocError>
    ensures { IfOk result (λ fields. fields ≡ zip keys.now values) }
{
    let mut fields = Sequence::new(alloc);
    'values: for value in values.into_vec() {
        push_field(&mut fields, keys, value)?;
    }
    Ok(fields)
}

/// The features of fields, and what the fields have.
pub fn unzipped<A: Drop>(
    alloc: Global,
    fields: Sequence<(Constant, A)>,
) -> Result<(Sequence<Constant>, Sequence<A>), AllocError>
    ensures features { IfOk result (λ parts. parts.0 ≡ map (λ (f : Constant × A). f.0) fields) }
    ensures values { IfOk result (λ parts. parts.1 ≡ map (λ (f : Constant × A). f.1) fields) }
{
    let mut features = Sequence::new(alloc);
    let mut values = Sequence::new(alloc);
    'fields: for (feature, value) in fields.into_vec() {
        features.push(feature)?;
        values.push(value)?;
    }
    Ok((features, values))
}

/// A record, or its label where it has no fields.
fn record_or_label(
    alloc: Global,
    name: Identifier,
    label: Literal,
    fields: Sequence<(Constant, Identifier)>,
) -> Result<Statement, AllocError>
    ensures { IfOk result (λ statement. statement ≡ statement_at 0 (record_or_label name label fields)) }
{
    if fields.len() == 0 {
        return Ok(Statement::Bind {
            name,
            value: Constant::Literal(label),
        });
    }
    let (features, fields) = unzipped(alloc, fields)?;
    Ok(Statement::BindRecord {
        name,
        label,
        features,
        fields,
    })
}

/// The statement that makes a name a record of these fields, whose identifiers are `names`.
pub fn record_bound(
    alloc: Global,
    words: &Words,
    name: Identifier,
    label: Literal,
    fields: &[Phrase],
    names: Sequence<Identifier>,
) -> Result<Statement, AllocError>
    ensures { IfOk result (λ statement. statement ≡ statement_at 0 (record_bound words.now name label (of_list (views fields.now)) names)) }
{
    let keys = keys_of(alloc, fields)?;
    let fields = in_arity_order(words, zipped(alloc, &keys, names)?)?;
    record_or_label(alloc, name, label, fields)
}
