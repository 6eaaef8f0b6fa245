//! What the state of a space decides.
ghost use Rattle.std.specs.Prelude.{◌≡◌, IfOk};
ghost use Rattle.oz_semantics.specs.Answers as answers;
ghost use Rattle.builtins.specs.Exact.{answer_of};
ghost use Rattle.operations.specs.Outcomes.{is_decided, is_merged};

use builtins::Answer;
use oz_base::{Copies, Ident, SpaceName};
use oz_semantics::{SpaceOperation, State};
use std::alloc::{AllocError, Global};

/// Whether the space neither runs nor is suspended.
pub fn is_decided(state: &State) -> bool
    ensures { result ≡ is_decided state.now }
{
    match state {
        State::Running | State::Suspended => false,
        State::Failed
        | State::Raised(_)
        | State::Merged
        | State::Alternatives(_)
        | State::Solved
        | State::Stuck => true,
    }
}

pub fn is_merged(state: &State) -> bool
    ensures { result ≡ is_merged state.now }
{
    match state {
        State::Merged => true,
        State::Running
        | State::Suspended
        | State::Failed
        | State::Raised(_)
        | State::Alternatives(_)
        | State::Solved
        | State::Stuck => false,
    }
}

/// It goes by the state of the space, and can't step yet.
pub fn waits(
    alloc: Global,
    operation: SpaceOperation,
    space: &SpaceName,
    argument: &Ident,
) -> Result<Answer, AllocError>
    ensures { IfOk result (λ a. answer_of a ≡ answers.Operates operation space.now argument.now) }
{
    Ok(Answer::Operates {
        operation,
        space: space.copied(alloc)?,
        argument: argument.copied(alloc)?,
    })
}
