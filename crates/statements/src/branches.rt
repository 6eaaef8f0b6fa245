//! What tests and matches answer.
ghost use Rattle.std.specs.Prelude.{◌≡◌, ◌∷◌, [], IfOk, option_copied};
ghost use Rattle.oz_semantics.specs.Matching.{matched};
ghost use Rattle.oz_semantics.specs.Answers.{given, with_value};
ghost use Rattle.oz_semantics.specs.Statements.{branch, clause};
ghost use Rattle.builtins.specs.Exact.{answer_of, erased};

use crate::frames::go_on;
use builtins::Answer;
use environments::Environment;
use matching::{Verdict, decide};
use oz_base::{Ident, Sequence};
use oz_language::{Constant, Literal, Piece};
use oz_semantics::{RaiseKind, Value};
use std::alloc::{AllocError, Global};
use term_store::Store;

/// A body goes on, by the value of a condition.
fn branch(
    alloc: Global,
    environment: &Environment,
    value: &Value,
    accepted: &Sequence<u32>,
    otherwise: &Sequence<u32>,
) -> Result<Answer, AllocError>
    ensures { IfOk result (λ a. answer_of a ≡ erased (branch environment.now accepted.now otherwise.now value.now)) }
{
    match value {
        Value::Constant(Constant::Literal(Literal::True)) => go_on(alloc, environment, accepted),
        Value::Constant(Constant::Literal(Literal::False)) => go_on(alloc, environment, otherwise),
        _ => Ok(Answer::RaisesKind(RaiseKind::Boolean)),
    }
}

/// `if X then S .. else S .. end`.
pub fn test(
    alloc: Global,
    store: &Store,
    environment: &Environment,
    condition: &Ident,
    accepted: &Sequence<u32>,
    otherwise: &Sequence<u32>,
) -> Result<Answer, AllocError>
    ensures { IfOk result (λ a. answer_of a ≡ erased (with_value store.now condition.now (branch environment.now accepted.now otherwise.now))) }
{
    match store.value(condition) {
        None => Ok(Answer::Rests),
        Some(value) => branch(alloc, environment, value, accepted, otherwise),
    }
}

/// `case X of P then S .. else S .. end`.
pub fn match_pattern(
    alloc: Global,
    store: &Store,
    environment: &Environment,
    subject: &Ident,
    pattern: &Sequence<Piece>,
    accepted: &Sequence<u32>,
    otherwise: &Sequence<u32>,
) -> Result<Answer, AllocError>
    ensures { IfOk result (λ a. answer_of a ≡ erased (clause environment.now accepted.now otherwise.now (matched store.now pattern.now (subject.now ∷ []) environment.now))) }
{
    match decide(alloc, store, pattern.as_slice(), subject, environment)? {
        Verdict::Matches(extended) => go_on(alloc, &extended, accepted),
        Verdict::Differs => go_on(alloc, environment, otherwise),
        Verdict::Waits(_) => Ok(Answer::Rests),
    }
}
