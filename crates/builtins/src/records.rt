//! Records. A literal is a record without features.
ghost use Rattle.std.specs.Prelude.{◌≡◌, pos, position, length, IfOk, option_copied};
ghost use Rattle.oz_language.specs.Constants.{constant_eq};
ghost use Rattle.oz_semantics.specs.Answers.{gives_constant, of_kind};
ghost use Rattle.oz_semantics.specs.Builtins.{gives_field, field_at, selects, label_in, arity_in};
ghost use Rattle.oz_semantics.specs.BestSearch.{field_of};
ghost use Rattle.builtins.specs.Exact.{answer_of, erased, selects_in, gives_label, gives_width, gives_arity};

use crate::answer::{Act, Answer};
use crate::given::gives_constant;
use oz_base::{Copies, Ident, Sequence};
use oz_language::{Constant, constant_eq};
use oz_semantics::{RaiseKind, Value};
use std::alloc::{AllocError, Global};

/// The place of a feature.
fn place_of(features: &[Constant], feature: Constant) -> Option<usize>
    ensures { result ≡ position (constant_eq feature) features.now }
{
    features
        .iter()
        .position(|other| constant_eq(feature, *other))
}

/// The field at a feature.
fn field_at<'a>(features: &[Constant], fields: &'a [Ident], feature: Constant) -> Option<&'a Ident>
    ensures { option_copied result ≡ field_at features.now fields.now feature }
{
    let place = place_of(features, feature)?;
    fields.get(place)
}

/// The field of a value at a feature, if it has one.
pub fn field_of(value: &Value, feature: Constant) -> Option<&Ident>
    ensures { option_copied result ≡ field_of feature value.now }
{
    match value {
        Value::Record(whole) => field_at(
            whole.get().features.as_slice(),
            whole.get().fields.as_slice(),
            feature,
        ),
        _ => None,
    }
}

/// The output is what a field is, where there is one.
fn gives_field(alloc: Global, output: &Ident, field: Option<&Ident>) -> Result<Answer, AllocError>
    ensures { IfOk result (λ a. answer_of a ≡ erased (gives_field output.now (option_copied field.entry))) }
{
    match field {
        Some(field) => Ok(Answer::Acts(Act::GivesVariable {
            variable: output.copied(alloc)?,
            other: field.copied(alloc)?,
        })),
        None => Ok(Answer::RaisesKind(RaiseKind::Feature)),
    }
}

/// What a record with these features and fields has at a feature.
fn selects_in(
    alloc: Global,
    output: &Ident,
    features: &[Constant],
    fields: &[Ident],
    feature: &Value,
) -> Result<Answer, AllocError>
    ensures { IfOk result (λ a. answer_of a ≡ erased (selects_in output.now features.now fields.now feature.now)) }
{
    match feature {
        Value::Constant(constant) => {
            gives_field(alloc, output, field_at(features, fields, *constant))
        }
        _ => Ok(Answer::RaisesKind(RaiseKind::BadKind)),
    }
}

/// What a value has at a feature.
pub fn selects(
    alloc: Global,
    output: &Ident,
    value: &Value,
    feature: &Value,
) -> Result<Answer, AllocError>
    ensures { IfOk result (λ a. answer_of a ≡ erased (selects output.now value.now feature.now)) }
{
    match value {
        Value::Record(whole) => selects_in(
            alloc,
            output,
            whole.get().features.as_slice(),
            whole.get().fields.as_slice(),
            feature,
        ),
        Value::Constant(Constant::Literal(_)) => selects_in(alloc, output, &[], &[], feature),
        _ => Ok(Answer::RaisesKind(RaiseKind::BadKind)),
    }
}

/// The label of a value.
pub fn gives_label(alloc: Global, output: &Ident, value: &Value) -> Result<Answer, AllocError>
    ensures { IfOk result (λ a. answer_of a ≡ erased (gives_label output.now value.now)) }
{
    match value {
        Value::Record(whole) => {
            gives_constant(alloc, output, Constant::Literal(whole.get().label))
        }
        Value::Constant(Constant::Literal(literal)) => {
            gives_constant(alloc, output, Constant::Literal(*literal))
        }
        _ => Ok(Answer::RaisesKind(RaiseKind::BadKind)),
    }
}

/// The output is a number of features.
fn gives_count(alloc: Global, output: &Ident, count: usize) -> Result<Answer, AllocError>
    ensures { IfOk result (λ a. answer_of a ≡ gives_constant output.now (Constant.Int (pos count))) }
{
    gives_constant(alloc, output, Constant::Int(count as i128))
}

/// How many features a value has.
pub fn gives_width(alloc: Global, output: &Ident, value: &Value) -> Result<Answer, AllocError>
    ensures { IfOk result (λ a. answer_of a ≡ erased (gives_width output.now value.now)) }
{
    match value {
        Value::Record(whole) => gives_count(alloc, output, whole.get().features.len()),
        Value::Constant(Constant::Literal(_)) => gives_count(alloc, output, 0),
        _ => Ok(Answer::RaisesKind(RaiseKind::BadKind)),
    }
}

/// The features of a value.
pub fn gives_arity(alloc: Global, output: &Ident, value: &Value) -> Result<Answer, AllocError>
    ensures { IfOk result (λ a. answer_of a ≡ erased (gives_arity output.now value.now)) }
{
    match value {
        Value::Record(whole) => Ok(Answer::Acts(Act::GivesList {
            variable: output.copied(alloc)?,
            items: whole.get().features.copied(alloc)?,
        })),
        Value::Constant(Constant::Literal(_)) => Ok(Answer::Acts(Act::GivesList {
            variable: output.copied(alloc)?,
            items: Sequence::new(alloc),
        })),
        _ => Ok(Answer::RaisesKind(RaiseKind::BadKind)),
    }
}
