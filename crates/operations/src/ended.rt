//! Copies and merging: not of a space that has failed or was ended by another exception.
ghost use Rattle.std.specs.Prelude.{◌≡◌, IfOk};
ghost use Rattle.oz_semantics.specs.Answers as answers;
ghost use Rattle.builtins.specs.Exact.{answer_of, erased};
ghost use Rattle.operations.specs.Outcomes.{clones, merges};

use crate::states::waits;
use builtins::{Answer, Edit};
use oz_base::{Copies, Ident, SpaceName};
use oz_semantics::{RaiseKind, SpaceOperation, State};
use std::alloc::{AllocError, Global};

fn copies(alloc: Global, space: &SpaceName, variable: &Ident) -> Result<Answer, AllocError>
    ensures { IfOk result (λ a. answer_of a ≡ answers.Edits (answers.Copies space.now variable.now)) }
{
    Ok(Answer::Edits(Edit::Copies {
        space: space.copied(alloc)?,
        variable: variable.copied(alloc)?,
    }))
}

fn takes_in(alloc: Global, space: &SpaceName, variable: &Ident) -> Result<Answer, AllocError>
    ensures { IfOk result (λ a. answer_of a ≡ answers.Edits (answers.TakesIn space.now variable.now)) }
{
    Ok(Answer::Edits(Edit::TakesIn {
        space: space.copied(alloc)?,
        variable: variable.copied(alloc)?,
    }))
}

/// The variable is a copy of the space.
pub fn clones(
    alloc: Global,
    space: &SpaceName,
    variable: &Ident,
    state: &State,
) -> Result<Answer, AllocError>
    ensures { IfOk result (λ a. answer_of a ≡ erased (clones space.now variable.now state.now)) }
{
    match state {
        State::Running | State::Suspended => waits(alloc, SpaceOperation::Clone, space, variable),
        State::Failed => Ok(Answer::RaisesKind(RaiseKind::FailureSpace)),
        State::Raised(_) => Ok(Answer::RaisesKind(RaiseKind::SpaceRaised)),
        State::Merged => Ok(Answer::RaisesKind(RaiseKind::SpaceMerged)),
        State::Alternatives(_) | State::Solved | State::Stuck => copies(alloc, space, variable),
    }
}

/// The space becomes a part of the thread's, and the variable is its root variable.
pub fn merges(
    alloc: Global,
    space: &SpaceName,
    variable: &Ident,
    state: &State,
) -> Result<Answer, AllocError>
    ensures { IfOk result (λ a. answer_of a ≡ erased (merges space.now variable.now state.now)) }
{
    match state {
        State::Running | State::Suspended => waits(alloc, SpaceOperation::Merge, space, variable),
        State::Failed => Ok(Answer::RaisesKind(RaiseKind::FailureSpace)),
        State::Raised(_) => Ok(Answer::RaisesKind(RaiseKind::SpaceRaised)),
        State::Merged => Ok(Answer::RaisesKind(RaiseKind::SpaceMerged)),
        State::Alternatives(_) | State::Solved | State::Stuck => takes_in(alloc, space, variable),
    }
}
