//! What operations on spaces come to.
ghost use Rattle.std.specs.Prelude.{◌≡◌, ℕ, List, IfOk};
ghost use Rattle.oz_language.specs.declared.kernel.Statement.{Statement};
ghost use Rattle.oz_semantics.specs.Operations.{operated};
ghost use Rattle.builtins.specs.Exact.{erased};
ghost use Rattle.operations.specs.Outcomes.{IsOutcome, outcome_of, seeing};

use crate::asking::asks;
use crate::committing::commitment;
use crate::ended::{clones, merges};
use crate::injecting::injection;
use crate::outcome::Outcome;
use oz_base::{Ident, SpaceName};
use oz_semantics::{SpaceOperation, State};
use std::alloc::{AllocError, Global};
use term_store::Store;

fn operated_exactly(
    alloc: Global,
    store: &Store,
    inner: &Store,
    operation: SpaceOperation,
    space: &SpaceName,
    argument: &Ident,
    state: &State,
) -> Result<Outcome, AllocError>
    ensures { IfOk result (λ o. (statements : List Statement) (own : List ℕ) → outcome_of o ≡ erased (operated (seeing statements own store.now) inner.now operation space.now argument.now state.now)) }
{
    match operation {
        SpaceOperation::Ask => asks(alloc, inner, space, argument, state),
        SpaceOperation::Commit => {
            let answer = commitment(alloc, store, space, argument, state)?;
            Ok(Outcome::Answers(answer))
        }
        SpaceOperation::Clone => {
            let answer = clones(alloc, space, argument, state)?;
            Ok(Outcome::Answers(answer))
        }
        SpaceOperation::Inject => {
            let answer = injection(alloc, store, space, argument, state)?;
            Ok(Outcome::Answers(answer))
        }
        SpaceOperation::Merge => {
            let answer = merges(alloc, space, argument, state)?;
            Ok(Outcome::Answers(answer))
        }
    }
}

/// What an operation on a child space with its other argument comes to, by the state of the space, in a thread whose space sees the store.
/// What the child sees is read only for the exception that ended it, of which at most 1,000 nodes are copied. As long as the state is
/// not decided, it is the operation itself, but for an injection. It refuses where there is no memory.
pub fn operated(
    alloc: Global,
    store: &Store,
    inner: &Store,
    operation: SpaceOperation,
    space: &SpaceName,
    argument: &Ident,
    state: &State,
) -> Result<Outcome, AllocError>
    ensures { IfOk result (λ o. (statements : List Statement) (own : List ℕ) → IsOutcome (operated (seeing statements own store.now) inner.now operation space.now argument.now state.now) o) }
{
    operated_exactly(alloc, store, inner, operation, space, argument, state)
}
