//! Whether something of a space or of a space below it can step or is due, by the states that are known.
ghost use Rattle.std.specs.Prelude.{◌≡◌, ◌<◌, ◌≤◌, length, IfOk};
ghost use Rattle.std.specs.List.{list_any};
ghost use Rattle.oz_semantics.specs.Sights.{can_step};
ghost use Rattle.oz_semantics.specs.Spaces.{ready_in, layer_goes_on, subtree_goes_on};
ghost use Rattle.oz_semantics.specs.declared.configuration.Status.TheVariants as status;
ghost use Rattle.space_core.specs.Levels.{OfLayer};
ghost use Rattle.stability.specs.Known.{known};
ghost use Rattle.stability.specs.Parts.{part};

use crate::due::has_due_at;
use crate::known::States;
use crate::parts::end_of;
use crate::readiness::can_step;
use oz_language::Statement;
use oz_semantics::{Status, Thread};
use space_core::Levels;
use std::alloc::{AllocError, Global};

/// Whether one of these threads of the space at a place can step.
fn any_steps(
    alloc: Global,
    statements: &[Statement],
    levels: &Levels,
    states: &States,
    place: usize,
    threads: &[Thread],
) -> Result<bool, AllocError>
    requires { place < length levels.now }
    ensures { OfLayer levels.now place (λ l. IfOk result (λ any. any ≡ list_any (λ t. can_step (ready_in statements.now levels.now (known levels.now states.now) l.space t)) threads.now)) }
{
    for thread in threads {
        if can_step(alloc, statements, levels, states, place, thread)? {
            return Ok(true);
        }
    }
    Ok(false)
}

/// Whether a thread of the space at a place, which is open, can step, or a propagator of it is due.
fn open_goes_on(
    alloc: Global,
    statements: &[Statement],
    levels: &Levels,
    states: &States,
    place: usize,
) -> Result<bool, AllocError>
    requires { place < length levels.now }
    ensures { OfLayer levels.now place (λ l. l.status ≡ status.Open → IfOk result (λ goes. goes ≡ layer_goes_on statements.now levels.now (known levels.now states.now) l)) }
{
    let threads = levels.threads_at(place);
    if any_steps(alloc, statements, levels, states, place, threads)? {
        return Ok(true);
    }
    Ok(has_due_at(levels, place))
}

fn layer_goes_on(
    alloc: Global,
    statements: &[Statement],
    levels: &Levels,
    states: &States,
    place: usize,
) -> Result<bool, AllocError>
    requires { place < length levels.now }
    ensures { OfLayer levels.now place (λ l. IfOk result (λ goes. goes ≡ layer_goes_on statements.now levels.now (known levels.now states.now) l)) }
{
    match levels.status_at(place) {
        Status::Open => open_goes_on(alloc, statements, levels, states, place),
        Status::Failed | Status::Raised(_) | Status::Merged => Ok(false),
    }
}

/// Whether something of the spaces from one place to another can step or is due.
fn part_goes_on(
    alloc: Global,
    statements: &[Statement],
    levels: &Levels,
    states: &States,
    from: usize,
    to: usize,
) -> Result<bool, AllocError>
    requires ordered { from ≤ to }
    requires within { to ≤ length levels.now }
    ensures { IfOk result (λ goes. goes ≡ list_any (layer_goes_on statements.now levels.now (known levels.now states.now)) (part levels.now from to)) }
{
    for place in from..to {
        if layer_goes_on(alloc, statements, levels, states, place)? {
            return Ok(true);
        }
    }
    Ok(false)
}

/// Whether something of the space at a place or of a space below it can step or is due. It looks at the threads and propagators of these
/// until one can or is.
pub fn subtree_goes_on(
    alloc: Global,
    statements: &[Statement],
    levels: &Levels,
    states: &States,
    place: usize,
) -> Result<bool, AllocError>
    requires { place < length levels.now }
    ensures { OfLayer levels.now place (λ l. IfOk result (λ goes. goes ≡ subtree_goes_on statements.now levels.now (known levels.now states.now) l.space)) }
{
    let end = end_of(levels, place);
    part_goes_on(alloc, statements, levels, states, place, end)
}
