//! What threads can do, by the states of the spaces in their own.
ghost use Rattle.std.specs.Prelude.{◌≡◌, ◌<◌, List, Some, length, option_copied, IfOk};
ghost use Rattle.oz_base.specs.Lists.{first};
ghost use Rattle.oz_language.specs.declared.kernel.Statement.{Statement};
ghost use Rattle.oz_semantics.specs.Store.{View};
ghost use Rattle.oz_semantics.specs.Configurations.{view};
ghost use Rattle.oz_semantics.specs.Sights as sights;
ghost use Rattle.oz_semantics.specs.Sights.{can_step};
ghost use Rattle.oz_semantics.specs.Answers as answers;
ghost use Rattle.oz_semantics.specs.Operations.{by_state};
ghost use Rattle.oz_semantics.specs.Readiness.{answer_ready};
ghost use Rattle.oz_semantics.specs.Spaces.{sight, ready_in};
ghost use Rattle.oz_semantics.specs.declared.configuration.Thread as running;
ghost use Rattle.view_laws.specs.Spaceless.{plain_ready};
ghost use Rattle.builtins.specs.Answers.{IsReady};
ghost use Rattle.space_core.specs.Levels.{OfLayer};
ghost use Rattle.stability.specs.Known.{known, waits_for_state};

use crate::known::States;
use crate::places::{known_place, known_state};
use builtins::{Answer, Readiness};
use operations::operated_ready;
use oz_base::{Ident, SpaceName};
use oz_language::Statement;
use oz_semantics::{Frame, SpaceOperation, Thread};
use oz_threads::{is_step, ready_on_top};
use space_core::Levels;
use statements::answer;
use std::alloc::{AllocError, Global};

/// Whether an operation can step in a thread of the space at a place.
fn operation_ready(
    alloc: Global,
    levels: &Levels,
    states: &States,
    place: usize,
    operation: SpaceOperation,
    space: &SpaceName,
    argument: &Ident,
) -> Result<Readiness, AllocError>
    requires { place < length levels.now }
    ensures { OfLayer levels.now place (λ l. IfOk result (λ r. (statements : List Statement) → IsReady (view levels.now l.space) (answer_ready (by_state levels.now (sight statements levels.now l.space) (known levels.now states.now) (answers.Operates operation space.now argument.now))) r)) }
{
    let Some(child) = known_place(levels, states, space) else {
        return Ok(Readiness::Steps);
    };
    let Some(state) = known_state(levels, states, child) else {
        return Ok(Readiness::Steps);
    };
    let store = levels.store_at(place);
    operated_ready(alloc, store, operation, space, argument, state)
}

/// Whether it waits for the state of a space.
fn waits_for_state(ready: &Readiness) -> bool
    ensures { (view : View) (defined : sights.Readiness) → IsReady view defined ready.now → result ≡ waits_for_state defined }
{
    match ready {
        Readiness::WaitsForState(_) => true,
        Readiness::Steps | Readiness::Waits(_) | Readiness::Offers { .. } => false,
    }
}

/// What a thread of the space at a place can do whose stack has this on top, and of which it is known what it can do by what its space
/// sees alone.
fn resolved(
    alloc: Global,
    statements: &[Statement],
    levels: &Levels,
    states: &States,
    place: usize,
    frame: &Frame,
    ready: Readiness,
) -> Result<Readiness, AllocError>
    requires { place < length levels.now }
    ensures { OfLayer levels.now place (λ l. IfOk result (λ r. (t : running.Thread) → first t.frames ≡ Some frame.now
        → IsReady (view levels.now l.space) (plain_ready (sight statements.now levels.now l.space) t) ready
        → IsReady (view levels.now l.space) (ready_in statements.now levels.now (known levels.now states.now) l.space t) r)) }
{
    let space = levels.space_at(place);
    let store = levels.store_at(place);
    let answer = answer(alloc, statements, space, store, frame)?;
    match &answer {
        Answer::Operates {
            operation,
            space,
            argument,
        } => operation_ready(alloc, levels, states, place, *operation, space, argument),
        Answer::Acts(_) => Ok(ready),
        Answer::Edits(_) => Ok(ready),
        Answer::RaisesKind(_) => Ok(ready),
        Answer::RaisesTerm(_) => Ok(ready),
        Answer::Widens(_) => Ok(ready),
        Answer::Rests => Ok(ready),
    }
}

/// What a thread of the space at a place can do whose stack has this on top, by the states that are known. Its answer is asked for only
/// where it waits for a state. It refuses where there is no memory.
pub fn ready_by(
    alloc: Global,
    statements: &[Statement],
    levels: &Levels,
    states: &States,
    place: usize,
    frame: Option<&Frame>,
) -> Result<Readiness, AllocError>
    requires { place < length levels.now }
    ensures { OfLayer levels.now place (λ l. IfOk result (λ r. (t : running.Thread) → first t.frames ≡ option_copied frame.entry
        → IsReady (view levels.now l.space) (ready_in statements.now levels.now (known levels.now states.now) l.space t) r)) }
{
    let space = levels.space_at(place);
    let store = levels.store_at(place);
    let ready = ready_on_top(alloc, statements, space, store, frame)?;
    if !waits_for_state(&ready) {
        return Ok(ready);
    }
    match frame {
        None => Ok(ready),
        Some(frame) => resolved(alloc, statements, levels, states, place, frame, ready),
    }
}

/// What a thread of the space at a place can do, by the states that are known.
pub fn ready_in(
    alloc: Global,
    statements: &[Statement],
    levels: &Levels,
    states: &States,
    place: usize,
    thread: &Thread,
) -> Result<Readiness, AllocError>
    requires { place < length levels.now }
    ensures { OfLayer levels.now place (λ l. IfOk result (IsReady (view levels.now l.space) (ready_in statements.now levels.now (known levels.now states.now) l.space thread.now))) }
{
    ready_by(
        alloc,
        statements,
        levels,
        states,
        place,
        thread.frames.top(),
    )
}

/// Whether a thread of the space at a place can step, by the states that are known.
pub fn can_step(
    alloc: Global,
    statements: &[Statement],
    levels: &Levels,
    states: &States,
    place: usize,
    thread: &Thread,
) -> Result<bool, AllocError>
    requires { place < length levels.now }
    ensures { OfLayer levels.now place (λ l. IfOk result (λ steps. steps ≡ can_step (ready_in statements.now levels.now (known levels.now states.now) l.space thread.now))) }
{
    let ready = ready_in(alloc, statements, levels, states, place, thread)?;
    Ok(is_step(&ready))
}
