//! Descriptions of domains.
ghost use Rattle.std.specs.Prelude.{◌≡◌, None, IfOk};
ghost use Rattle.oz_domains.specs.Domains.{is_domain_value};
ghost use Rattle.oz_language.specs.Wording.{hash_word};
ghost use Rattle.oz_semantics.specs.Constraints.{bounds, bounds_by, refusal_of};
ghost use Rattle.oz_semantics.specs.Inputs.{both, integer_input};
ghost use Rattle.oz_semantics.specs.Values.{integer_in, pair_in};
ghost use Rattle.fd_inputs.specs.Answers.{as_it_is, bounds_of, input_of};

use crate::input::{Input, both};
use crate::values::{integer_in, pair_in};
use crate::words::HASH;
use oz_base::{Copies, GREATEST_VALUE, Ident, Interval, LEAST_VALUE};
use oz_semantics::{RaiseKind, Value};
use std::alloc::{AllocError, Global};
use term_store::Store;

/// The least and the greatest integer of a domain description, which may be any integers.
#[derive(Clone, Copy, Debug, PartialEq, Eq)]
pub struct Range {
    pub low: i128,
    pub high: i128,
}

/// All domain values.
pub const WHOLE: Interval = Interval {
    low: LEAST_VALUE,
    high: GREATEST_VALUE,
};

/// The integer that a variable is.
fn integer_input(alloc: Global, store: &Store, x: &Ident) -> Result<Input<i128>, AllocError>
    ensures { IfOk result (λ input. input_of as_it_is input ≡ integer_input store.now x.now) }
{
    let Some(value) = store.value(x) else {
        return Ok(Input::Unknown(x.copied(alloc)?));
    };
    match integer_in(value) {
        None => Ok(Input::OtherKind),
        Some(integer) => Ok(Input::Known(integer)),
    }
}

/// The bounds that two variables are.
fn bounds_at(
    alloc: Global,
    store: &Store,
    low: &Ident,
    high: &Ident,
) -> Result<Input<Range>, AllocError>
    ensures { IfOk result (λ input. input_of bounds_of input ≡ both (integer_input store.now low.now) (integer_input store.now high.now)) }
{
    let least = integer_input(alloc, store, low)?;
    let greatest = integer_input(alloc, store, high)?;
    match both(least, greatest) {
        Input::Known((low, high)) => Ok(Input::Known(Range { low, high })),
        Input::Unknown(x) => Ok(Input::Unknown(x)),
        Input::OtherKind => Ok(Input::OtherKind),
    }
}

/// The bounds that a value describes.
fn bounds_in(alloc: Global, store: &Store, value: &Value) -> Result<Input<Range>, AllocError>
    ensures { IfOk result (λ input. input_of bounds_of input ≡ bounds_by store.now (integer_in value.now) (pair_in hash_word value.now)) }
{
    if let Some(integer) = integer_in(value) {
        return Ok(Input::Known(Range {
            low: integer,
            high: integer,
        }));
    }
    match pair_in(value, HASH) {
        None => Ok(Input::OtherKind),
        Some((low, high)) => bounds_at(alloc, store, low, high),
    }
}

/// The bounds that a domain description has. It refuses where there is no memory.
pub fn bounds(alloc: Global, store: &Store, description: &Ident) -> Result<Input<Range>, AllocError>
    ensures { IfOk result (λ input. input_of bounds_of input ≡ bounds store.now description.now) }
{
    match store.value(description) {
        None => Ok(Input::Unknown(description.copied(alloc)?)),
        Some(value) => bounds_in(alloc, store, value),
    }
}

fn is_domain_value(value: i128) -> bool
    ensures { result ≡ is_domain_value value }
{
    LEAST_VALUE as i128 <= value && value <= GREATEST_VALUE as i128
}

/// Why no domain has these bounds, if none has.
pub fn refusal_of(low: i128, high: i128) -> Option<RaiseKind>
    ensures { result ≡ refusal_of low high }
{
    if !is_domain_value(low) {
        return Some(RaiseKind::Domain);
    }
    if !is_domain_value(high) {
        return Some(RaiseKind::Domain);
    }
    if low <= high {
        return None;
    }
    Some(RaiseKind::FailureTell)
}

/// The interval of bounds that a domain has.
pub fn interval_of(bounds: Range) -> Interval
    requires { refusal_of bounds.low bounds.high ≡ None }
    ensures low { result.low ≡ bounds.low }
    ensures high { result.high ≡ bounds.high }
{
    Interval {
        low: bounds.low as i64,
        high: bounds.high as i64,
    }
}
