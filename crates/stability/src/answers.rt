//! What threads answer, by the states of the spaces in their own.
ghost use Rattle.std.specs.Prelude.{◌≡◌, ◌<◌, List, length, option_copied, IfOk};
ghost use Rattle.oz_base.specs.Lists.{first};
ghost use Rattle.oz_language.specs.declared.kernel.Statement.{Statement};
ghost use Rattle.oz_semantics.specs.Answers as answers;
ghost use Rattle.oz_semantics.specs.Operations.{by_state};
ghost use Rattle.oz_semantics.specs.Spaces.{sight, answer_in};
ghost use Rattle.oz_semantics.specs.declared.configuration.Frame as stacked;
ghost use Rattle.builtins.specs.Answers.{IsAnswer};
ghost use Rattle.operations.specs.Outcomes.{IsOutcome};
ghost use Rattle.space_core.specs.Levels.{OfLayer};
ghost use Rattle.stability.specs.Known.{known};

use crate::known::States;
use crate::places::{known_place, known_state};
use builtins::Answer;
use operations::{Outcome, operated};
use oz_base::{Ident, SpaceName};
use oz_language::Statement;
use oz_semantics::{Frame, RaiseKind, SpaceOperation};
use space_core::Levels;
use statements::answer;
use std::alloc::{AllocError, Global};

/// An operation on a space that is not in the thread's own.
fn no_child() -> Outcome
    ensures { IsOutcome (answers.RaisesKind RaiseKind.SpaceParent) result }
{
    Outcome::Answers(Answer::RaisesKind(RaiseKind::SpaceParent))
}

/// What an operation comes to in a thread of the space at a place.
fn operation_answer(
    alloc: Global,
    levels: &Levels,
    states: &States,
    place: usize,
    operation: SpaceOperation,
    space: &SpaceName,
    argument: &Ident,
) -> Result<Outcome, AllocError>
    requires { place < length levels.now }
    ensures { OfLayer levels.now place (λ l. IfOk result (λ o. (statements : List Statement) → IsOutcome (by_state levels.now (sight statements levels.now l.space) (known levels.now states.now) (answers.Operates operation space.now argument.now)) o)) }
{
    let Some(child) = known_place(levels, states, space) else {
        return Ok(no_child());
    };
    let Some(state) = known_state(levels, states, child) else {
        return Ok(no_child());
    };
    let store = levels.store_at(place);
    let inner = levels.store_at(child);
    operated(alloc, store, inner, operation, space, argument, state)
}

/// What an answer comes to of a thread of the space at a place.
fn resolved(
    alloc: Global,
    levels: &Levels,
    states: &States,
    place: usize,
    answer: Answer,
) -> Result<Outcome, AllocError>
    requires { place < length levels.now }
    ensures { OfLayer levels.now place (λ l. (statements : List Statement) (defined : answers.Answer) → IsAnswer defined answer
        → IfOk result (IsOutcome (by_state levels.now (sight statements levels.now l.space) (known levels.now states.now) defined))) }
{
    match answer {
        Answer::Operates {
            operation,
            space,
            argument,
        } => operation_answer(alloc, levels, states, place, operation, &space, &argument),
        Answer::Acts(act) => Ok(Outcome::Answers(Answer::Acts(act))),
        Answer::Edits(edit) => Ok(Outcome::Answers(Answer::Edits(edit))),
        Answer::RaisesKind(kind) => Ok(Outcome::Answers(Answer::RaisesKind(kind))),
        Answer::RaisesTerm(exception) => Ok(Outcome::Answers(Answer::RaisesTerm(exception))),
        Answer::Widens(tells) => Ok(Outcome::Answers(Answer::Widens(tells))),
        Answer::Rests => Ok(Outcome::Answers(Answer::Rests)),
    }
}

/// What the statement answers that is on top of a stack of a thread of the space at a place, by the states that are known: an operation on a
/// space in the thread's own goes by the state of that. It refuses where there is no memory.
pub fn answer_in(
    alloc: Global,
    statements: &[Statement],
    levels: &Levels,
    states: &States,
    place: usize,
    frame: Option<&Frame>,
) -> Result<Outcome, AllocError>
    requires { place < length levels.now }
    ensures { OfLayer levels.now place (λ l. IfOk result (λ o. (frames : List stacked.Frame) → first frames ≡ option_copied frame.entry → IsOutcome (answer_in statements.now levels.now (known levels.now states.now) l.space frames) o)) }
{
    match frame {
        None => Ok(Outcome::Answers(Answer::Rests)),
        Some(frame) => {
            let space = levels.space_at(place);
            let store = levels.store_at(place);
            let answer = answer(alloc, statements, space, store, frame)?;
            resolved(alloc, levels, states, place, answer)
        }
    }
}
