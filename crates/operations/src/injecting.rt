//! Injection (CTM 12.5): into a space that has failed or was ended by another exception nothing is put.
ghost use Rattle.std.specs.Prelude.{◌≡◌, IfOk};
ghost use Rattle.oz_semantics.specs.Values.{is_procedure};
ghost use Rattle.oz_semantics.specs.Answers as answers;
ghost use Rattle.oz_semantics.specs.Answers.{with_value};
ghost use Rattle.oz_semantics.specs.Operations.{injected_in, injects};
ghost use Rattle.builtins.specs.Exact.{answer_of, erased};
ghost use Rattle.operations.specs.Outcomes.{injections};

use crate::states::is_merged;
use builtins::{Act, Answer, Edit};
use oz_base::{Copies, Ident, SpaceName};
use oz_semantics::{RaiseKind, State, Value};
use std::alloc::{AllocError, Global};
use term_store::Store;

fn is_procedure(value: &Value) -> bool
    ensures { result ≡ is_procedure value.now }
{
    match value {
        Value::Procedure(_) | Value::Builtin(_) => true,
        Value::Constant(_)
        | Value::Name(_)
        | Value::Record(_)
        | Value::Cell(_)
        | Value::Port(_)
        | Value::Space(_) => false,
    }
}

fn puts_in(alloc: Global, space: &SpaceName, procedure: &Ident) -> Result<Answer, AllocError>
    ensures { IfOk result (λ a. answer_of a ≡ answers.Edits (answers.Injects space.now procedure.now)) }
{
    Ok(Answer::Edits(Edit::Injects {
        space: space.copied(alloc)?,
        procedure: procedure.copied(alloc)?,
    }))
}

/// In a space of this state the procedure is applied to the root variable.
fn injected_in(
    alloc: Global,
    space: &SpaceName,
    procedure: &Ident,
    state: &State,
) -> Result<Answer, AllocError>
    ensures { IfOk result (λ a. answer_of a ≡ injected_in space.now procedure.now state.now) }
{
    match state {
        State::Failed | State::Raised(_) => Ok(Answer::Acts(Act::Passes)),
        State::Running
        | State::Suspended
        | State::Merged
        | State::Alternatives(_)
        | State::Solved
        | State::Stuck => puts_in(alloc, space, procedure),
    }
}

/// The same, where the procedure has this value.
fn injects(
    alloc: Global,
    space: &SpaceName,
    procedure: &Ident,
    state: &State,
    value: &Value,
) -> Result<Answer, AllocError>
    ensures { IfOk result (λ a. answer_of a ≡ injects space.now procedure.now state.now value.now) }
{
    if is_procedure(value) {
        injected_in(alloc, space, procedure, state)
    } else {
        Ok(Answer::RaisesKind(RaiseKind::BadKind))
    }
}

/// The same of the procedure that a variable is, which is waited for.
fn injects_given(
    alloc: Global,
    store: &Store,
    space: &SpaceName,
    procedure: &Ident,
    state: &State,
) -> Result<Answer, AllocError>
    ensures { IfOk result (λ a. answer_of a ≡ erased (with_value store.now procedure.now (injects space.now procedure.now state.now))) }
{
    match store.value(procedure) {
        None => Ok(Answer::Rests),
        Some(value) => injects(alloc, space, procedure, state, value),
    }
}

/// In a space that was not merged the procedure, which is waited for, is applied to the root variable.
pub fn injection(
    alloc: Global,
    store: &Store,
    space: &SpaceName,
    procedure: &Ident,
    state: &State,
) -> Result<Answer, AllocError>
    ensures { IfOk result (λ a. answer_of a ≡ erased (injections store.now space.now procedure.now state.now)) }
{
    if is_merged(state) {
        return Ok(Answer::RaisesKind(RaiseKind::SpaceMerged));
    }
    injects_given(alloc, store, space, procedure, state)
}
