//! Commitment (CTM 12.5): the space goes on with one of its alternatives.
ghost use Rattle.std.specs.Prelude.{◌≡◌, IfOk};
ghost use Rattle.oz_semantics.specs.Answers.{with_value, of_kind};
ghost use Rattle.oz_semantics.specs.Values.{integer_in};
ghost use Rattle.oz_semantics.specs.Operations.{alternative_of, committed_in};
ghost use Rattle.builtins.specs.Exact.{answer_of, erased};
ghost use Rattle.operations.specs.Outcomes.{commits_to, commits};

use crate::states::{is_decided, is_merged, waits};
use builtins::{Answer, Edit};
use oz_base::{Copies, Ident, SpaceName};
use oz_language::Constant;
use oz_semantics::{RaiseKind, SpaceOperation, State, Value};
use std::alloc::{AllocError, Global};
use term_store::Store;

/// The alternative of this number, from 1, of so many.
fn alternative_of(
    alloc: Global,
    space: &SpaceName,
    count: u64,
    number: i128,
) -> Result<Answer, AllocError>
    ensures { IfOk result (λ a. answer_of a ≡ alternative_of space.now count number) }
{
    if number < 1 || (count as i128) < number {
        return Ok(Answer::RaisesKind(RaiseKind::SpaceChoice));
    }
    Ok(Answer::Edits(Edit::Commits {
        space: space.copied(alloc)?,
        index: number as u64,
    }))
}

/// The alternative of this number, in a space of this state.
fn committed_in(
    alloc: Global,
    space: &SpaceName,
    state: &State,
    number: i128,
) -> Result<Answer, AllocError>
    ensures { IfOk result (λ a. answer_of a ≡ committed_in space.now state.now number) }
{
    match state {
        State::Alternatives(count) => alternative_of(alloc, space, *count, number),
        State::Raised(_) => Ok(Answer::RaisesKind(RaiseKind::SpaceRaised)),
        State::Running
        | State::Suspended
        | State::Failed
        | State::Merged
        | State::Solved
        | State::Stuck => Ok(Answer::RaisesKind(RaiseKind::SpaceChoice)),
    }
}

/// The alternative of the number that is this value.
fn commits_value(
    alloc: Global,
    space: &SpaceName,
    state: &State,
    value: &Value,
) -> Result<Answer, AllocError>
    ensures { IfOk result (λ a. answer_of a ≡ of_kind (integer_in value.now) (committed_in space.now state.now)) }
{
    match value {
        Value::Constant(Constant::Int(number)) => committed_in(alloc, space, state, *number),
        _ => Ok(Answer::RaisesKind(RaiseKind::BadKind)),
    }
}

/// The same, once the space is decided.
fn commits_to(
    alloc: Global,
    space: &SpaceName,
    argument: &Ident,
    state: &State,
    value: &Value,
) -> Result<Answer, AllocError>
    ensures { IfOk result (λ a. answer_of a ≡ commits_to space.now argument.now state.now value.now) }
{
    if is_decided(state) {
        commits_value(alloc, space, state, value)
    } else {
        waits(alloc, SpaceOperation::Commit, space, argument)
    }
}

/// The same of the number that a variable is, which is waited for.
fn commits_given(
    alloc: Global,
    store: &Store,
    space: &SpaceName,
    argument: &Ident,
    state: &State,
) -> Result<Answer, AllocError>
    ensures { IfOk result (λ a. answer_of a ≡ erased (with_value store.now argument.now (commits_to space.now argument.now state.now))) }
{
    match store.value(argument) {
        None => Ok(Answer::Rests),
        Some(value) => commits_to(alloc, space, argument, state, value),
    }
}

/// A space that was not merged goes on with the alternative of the number that a variable is, which is waited for.
pub fn commitment(
    alloc: Global,
    store: &Store,
    space: &SpaceName,
    argument: &Ident,
    state: &State,
) -> Result<Answer, AllocError>
    ensures { IfOk result (λ a. answer_of a ≡ erased (commits store.now space.now argument.now state.now)) }
{
    if is_merged(state) {
        return Ok(Answer::RaisesKind(RaiseKind::SpaceMerged));
    }
    commits_given(alloc, store, space, argument, state)
}
