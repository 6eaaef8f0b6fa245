//! Whether operations on spaces can step.
ghost use Rattle.std.specs.Prelude.{◌≡◌, ℕ, List, IfOk};
ghost use Rattle.oz_language.specs.declared.kernel.Statement.{Statement};
ghost use Rattle.oz_semantics.specs.Store.{View, value_of};
ghost use Rattle.oz_semantics.specs.Operations.{operated};
ghost use Rattle.oz_semantics.specs.Readiness.{answer_ready};
ghost use Rattle.builtins.specs.Answers.{IsReady};
ghost use Rattle.builtins.specs.Looks.{awaiting};
ghost use Rattle.operations.specs.Outcomes.{seeing, is_decided, once};

use crate::states::{is_decided, is_merged};
use builtins::{Readiness, ready_by, ready_one};
use oz_base::{Copies, Ident, SpaceName};
use oz_semantics::{SpaceOperation, State};
use std::alloc::{AllocError, Global};
use term_store::Store;

/// It steps once the space is decided.
fn once_decided(alloc: Global, space: &SpaceName, state: &State) -> Result<Readiness, AllocError>
    ensures { IfOk result (λ r. (view : View) → IsReady view (once space.now (is_decided state.now)) r) }
{
    if is_decided(state) {
        Ok(Readiness::Steps)
    } else {
        Ok(Readiness::WaitsForState(space.copied(alloc)?))
    }
}

/// The same, once the other argument has a value.
fn once_given(
    alloc: Global,
    store: &Store,
    space: &SpaceName,
    argument: &Ident,
    state: &State,
) -> Result<Readiness, AllocError>
    ensures { IfOk result (IsReady store.now (awaiting argument.now (value_of store.now argument.now) (once space.now (is_decided state.now)))) }
{
    match store.value(argument) {
        None => ready_by(alloc, Some(argument)),
        Some(_) => once_decided(alloc, space, state),
    }
}

/// Whether an operation on a child space with its other argument can step, by the state of the space, in a thread whose space sees the
/// store. It refuses where there is no memory.
pub fn operated_ready(
    alloc: Global,
    store: &Store,
    operation: SpaceOperation,
    space: &SpaceName,
    argument: &Ident,
    state: &State,
) -> Result<Readiness, AllocError>
    ensures { IfOk result (λ r. (statements : List Statement) (own : List ℕ) (inner : View) → IsReady store.now (answer_ready (operated (seeing statements own store.now) inner operation space.now argument.now state.now)) r) }
{
    if is_merged(state) {
        return Ok(Readiness::Steps);
    }
    match operation {
        SpaceOperation::Ask => once_decided(alloc, space, state),
        SpaceOperation::Clone => once_decided(alloc, space, state),
        SpaceOperation::Merge => once_decided(alloc, space, state),
        SpaceOperation::Commit => once_given(alloc, store, space, argument, state),
        SpaceOperation::Inject => ready_one(alloc, store, argument),
    }
}
