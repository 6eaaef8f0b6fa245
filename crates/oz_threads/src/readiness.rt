//! What a thread can do where it stands, by what its space sees alone.
ghost use Rattle.std.specs.Prelude.{◌≡◌, IfOk, option_copied};
ghost use Rattle.oz_base.specs.Lists.{first};
ghost use Rattle.oz_semantics.specs.Store.{View};
ghost use Rattle.oz_semantics.specs.Sights as sights;
ghost use Rattle.oz_semantics.specs.Sights.{can_step};
ghost use Rattle.oz_semantics.specs.declared.configuration.Thread as running;
ghost use Rattle.view_laws.specs.Spaceless.{plain_ready};
ghost use Rattle.builtins.specs.Answers.{IsReady};
ghost use Rattle.oz_threads.specs.Sights.{sight_of};

use builtins::Readiness;
use oz_base::{Sequence, SpaceName};
use oz_language::Statement;
use oz_semantics::{Frame, Thread};
use statements::ready;
use std::alloc::{AllocError, Global};
use term_store::Store;

/// What a thread of a space can do whose stack has this on top, by what the space sees. One without statements waits for nothing, and one
/// whose statement operates on a child space for the state of that.
pub fn ready_on_top(
    alloc: Global,
    statements: &[Statement],
    space: &SpaceName,
    store: &Store,
    frame: Option<&Frame>,
) -> Result<Readiness, AllocError>
    ensures { IfOk result (λ r. (t : running.Thread) → first t.frames ≡ option_copied frame.entry → IsReady store.now (plain_ready (sight_of statements.now space.now store.now) t) r) }
{
    match frame {
        Some(frame) => ready(alloc, statements, space, store, frame),
        None => Ok(Readiness::Waits(Sequence::new(alloc))),
    }
}

/// What a thread of a space can do, by what the space sees.
pub fn ready_where(
    alloc: Global,
    statements: &[Statement],
    space: &SpaceName,
    store: &Store,
    thread: &Thread,
) -> Result<Readiness, AllocError>
    ensures { IfOk result (IsReady store.now (plain_ready (sight_of statements.now space.now store.now) thread.now)) }
{
    ready_on_top(alloc, statements, space, store, thread.frames.top())
}

/// Whether it is a step.
pub fn is_step(ready: &Readiness) -> bool
    ensures { (view : View) (defined : sights.Readiness) → IsReady view defined ready.now → result ≡ can_step defined }
{
    match ready {
        Readiness::Steps => true,
        Readiness::Waits(_) | Readiness::WaitsForState(_) | Readiness::Offers { .. } => false,
    }
}

/// Whether a thread of a space can step, by what the space sees, whatever the states of its child spaces are.
pub fn steps_where(
    alloc: Global,
    statements: &[Statement],
    space: &SpaceName,
    store: &Store,
    thread: &Thread,
) -> Result<bool, AllocError>
    ensures { IfOk result (λ steps. steps ≡ can_step (plain_ready (sight_of statements.now space.now store.now) thread.now)) }
{
    let ready = ready_where(alloc, statements, space, store, thread)?;
    Ok(is_step(&ready))
}
