//! What `Choose` offers (CTM 12.5; Schulte 4).
ghost use Rattle.std.specs.Prelude.{◌≡◌};
ghost use Rattle.oz_semantics.specs.Answers.{with_value};
ghost use Rattle.builtins.specs.Choices.{size_in, choice_in, choice_of};
ghost use Rattle.builtins.specs.Exact.{answer_of, erased, offered_of, chooses};

use crate::answer::Answer;
use oz_base::Ident;
use oz_language::Constant;
use oz_semantics::{RaiseKind, Value};
use term_store::Store;

/// The most alternatives of a `Choose`.
const CHOICE_LIMIT: i128 = 1_000_000;

/// How many alternatives are offered of an integer, if any are.
fn size_in(number: i128) -> Option<u64>
    ensures { result ≡ size_in number }
{
    if number < 1 || CHOICE_LIMIT < number {
        return None;
    }
    Some(number as u64)
}

/// How many alternatives are offered of a value, if any are.
pub fn choice_in(value: &Value) -> Option<u64>
    ensures { result ≡ choice_in value.now }
{
    match value {
        Value::Constant(Constant::Int(number)) => size_in(*number),
        _ => None,
    }
}

/// How many alternatives a `Choose` of this variable offers. None exactly where it offers none: the variable is not determined, or is no
/// integer in the range.
pub fn choice_of(store: &Store, number: &Ident) -> Option<u64>
    ensures { result ≡ choice_of store.now number.now }
{
    match store.value(number) {
        None => None,
        Some(value) => choice_in(value),
    }
}

/// Alternatives are offered of an integer in the range, and wait for a commitment.
fn offered(number: i128) -> Answer
    ensures { answer_of result ≡ offered_of (size_in number) }
{
    match size_in(number) {
        Some(_) => Answer::Rests,
        None => Answer::RaisesKind(RaiseKind::Domain),
    }
}

fn chooses(value: &Value) -> Answer
    ensures { answer_of result ≡ erased (chooses value.now) }
{
    match value {
        Value::Constant(Constant::Int(number)) => offered(*number),
        _ => Answer::RaisesKind(RaiseKind::BadKind),
    }
}

/// Alternatives are offered, so many as the number says, which is waited for.
pub fn choose(store: &Store, number: &Ident) -> Answer
    ensures { answer_of result ≡ erased (with_value store.now number.now chooses) }
{
    match store.value(number) {
        None => Answer::Rests,
        Some(value) => chooses(value),
    }
}
