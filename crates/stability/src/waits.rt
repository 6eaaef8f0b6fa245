//! Whether something of a space waits for a variable of an ancestor, by the states that are known.
ghost use Rattle.std.specs.Prelude.{◌≡◌, ◌<◌, ◌≤◌, length, IfOk};
ghost use Rattle.std.specs.List.{list_any};
ghost use Rattle.oz_semantics.specs.Configurations.{view, ancestor_variables};
ghost use Rattle.oz_semantics.specs.Sights as sights;
ghost use Rattle.oz_semantics.specs.Sights.{waits_of};
ghost use Rattle.oz_semantics.specs.Spaces.{ready_in, is_held, layer_waits, waits_outside};
ghost use Rattle.oz_semantics.specs.declared.configuration.Status.TheVariants as status;
ghost use Rattle.builtins.specs.Answers.{IsReady};
ghost use Rattle.space_core.specs.Levels.{OfLayer};
ghost use Rattle.stability.specs.Known.{known};
ghost use Rattle.stability.specs.Parts.{part};
ghost use Rattle.stability.specs.Waits.{undecided_waits};

use crate::known::States;
use crate::parts::end_of;
use crate::readiness::ready_in;
use builtins::Readiness;
use oz_base::{Ident, SpaceName};
use oz_language::Statement;
use oz_semantics::{Propagator, Status, Thread};
use propagation::is_undecided;
use space_core::Levels;
use std::alloc::{AllocError, Global};

/// Whether one of the variables is held by the proper ancestors of the space, as the space at the place sees it.
fn any_held(levels: &Levels, place: usize, space: &SpaceName, waits: &[Ident]) -> bool
    requires { place < length levels.now }
    ensures { OfLayer levels.now place (λ l. result ≡ list_any (is_held (view levels.now l.space) (ancestor_variables levels.now space.now)) waits.now) }
{
    for variable in waits {
        if levels.is_held(place, space, variable) {
            return true;
        }
    }
    false
}

/// Whether what is waited for is held.
fn waits_held(levels: &Levels, place: usize, space: &SpaceName, ready: &Readiness) -> bool
    requires { place < length levels.now }
    ensures { OfLayer levels.now place (λ l. (defined : sights.Readiness) → IsReady (view levels.now l.space) defined ready.now
        → result ≡ list_any (is_held (view levels.now l.space) (ancestor_variables levels.now space.now)) (waits_of defined)) }
{
    match ready {
        Readiness::Waits(waits) => any_held(levels, place, space, waits.as_slice()),
        Readiness::Offers { waits, .. } => any_held(levels, place, space, waits.as_slice()),
        Readiness::Steps | Readiness::WaitsForState(_) => false,
    }
}

/// Whether a thread of the space at the place waits for a variable of the proper ancestors of the other space.
fn thread_waits(
    alloc: Global,
    statements: &[Statement],
    levels: &Levels,
    states: &States,
    place: usize,
    space: &SpaceName,
    thread: &Thread,
) -> Result<bool, AllocError>
    requires { place < length levels.now }
    ensures { OfLayer levels.now place (λ l. IfOk result (λ waits. waits ≡ list_any (is_held (view levels.now l.space) (ancestor_variables levels.now space.now))
        (waits_of (ready_in statements.now levels.now (known levels.now states.now) l.space thread.now)))) }
{
    let ready = ready_in(alloc, statements, levels, states, place, thread)?;
    Ok(waits_held(levels, place, space, &ready))
}

fn any_waits(
    alloc: Global,
    statements: &[Statement],
    levels: &Levels,
    states: &States,
    place: usize,
    space: &SpaceName,
    threads: &[Thread],
) -> Result<bool, AllocError>
    requires { place < length levels.now }
    ensures { OfLayer levels.now place (λ l. IfOk result (λ any. any ≡ list_any (λ t. list_any (is_held (view levels.now l.space) (ancestor_variables levels.now space.now))
        (waits_of (ready_in statements.now levels.now (known levels.now states.now) l.space t))) threads.now)) }
{
    for thread in threads {
        if thread_waits(alloc, statements, levels, states, place, space, thread)? {
            return Ok(true);
        }
    }
    Ok(false)
}

/// Whether a propagator of the space at a place is not decided, and one of its variables is held by the proper ancestors of the other
/// space.
fn propagator_waits(
    levels: &Levels,
    place: usize,
    space: &SpaceName,
    propagator: &Propagator,
) -> bool
    requires { place < length levels.now }
    ensures { OfLayer levels.now place (λ l. result ≡ undecided_waits (view levels.now l.space) (ancestor_variables levels.now space.now) propagator.now) }
{
    if !is_undecided(levels.store_at(place), propagator) {
        return false;
    }
    any_held(levels, place, space, propagator.variables.as_slice())
}

fn any_propagator_waits(
    levels: &Levels,
    place: usize,
    space: &SpaceName,
    propagators: &[Propagator],
) -> bool
    requires { place < length levels.now }
    ensures { OfLayer levels.now place (λ l. result ≡ list_any (undecided_waits (view levels.now l.space) (ancestor_variables levels.now space.now)) propagators.now) }
{
    for propagator in propagators {
        if propagator_waits(levels, place, space, propagator) {
            return true;
        }
    }
    false
}

/// Whether a thread or a propagator of the space at a place, which is open, waits for a variable of the proper ancestors of the other space.
fn open_waits(
    alloc: Global,
    statements: &[Statement],
    levels: &Levels,
    states: &States,
    place: usize,
    space: &SpaceName,
) -> Result<bool, AllocError>
    requires { place < length levels.now }
    ensures { OfLayer levels.now place (λ l. l.status ≡ status.Open → IfOk result (λ waits. waits ≡ layer_waits statements.now levels.now (known levels.now states.now) (ancestor_variables levels.now space.now) l)) }
{
    let threads = levels.threads_at(place);
    if any_waits(alloc, statements, levels, states, place, space, threads)? {
        return Ok(true);
    }
    let propagators = levels.propagators_at(place);
    Ok(any_propagator_waits(levels, place, space, propagators))
}

fn layer_waits(
    alloc: Global,
    statements: &[Statement],
    levels: &Levels,
    states: &States,
    place: usize,
    space: &SpaceName,
) -> Result<bool, AllocError>
    requires { place < length levels.now }
    ensures { OfLayer levels.now place (λ l. IfOk result (λ waits. waits ≡ layer_waits statements.now levels.now (known levels.now states.now) (ancestor_variables levels.now space.now) l)) }
{
    match levels.status_at(place) {
        Status::Open => open_waits(alloc, statements, levels, states, place, space),
        Status::Failed | Status::Raised(_) | Status::Merged => Ok(false),
    }
}

/// Whether something of the spaces from one place to another waits for a variable of the proper ancestors of the space.
fn part_waits(
    alloc: Global,
    statements: &[Statement],
    levels: &Levels,
    states: &States,
    from: usize,
    to: usize,
    space: &SpaceName,
) -> Result<bool, AllocError>
    requires ordered { from ≤ to }
    requires within { to ≤ length levels.now }
    ensures { IfOk result (λ waits. waits ≡ list_any (layer_waits statements.now levels.now (known levels.now states.now) (ancestor_variables levels.now space.now)) (part levels.now from to)) }
{
    for place in from..to {
        if layer_waits(alloc, statements, levels, states, place, space)? {
            return Ok(true);
        }
    }
    Ok(false)
}

/// Whether something of the space at a place or of a space below it waits for a variable of a proper ancestor of the space.
pub fn waits_outside(
    alloc: Global,
    statements: &[Statement],
    levels: &Levels,
    states: &States,
    place: usize,
) -> Result<bool, AllocError>
    requires { place < length levels.now }
    ensures { OfLayer levels.now place (λ l. IfOk result (λ waits. waits ≡ waits_outside statements.now levels.now (known levels.now states.now) l.space)) }
{
    let end = end_of(levels, place);
    part_waits(
        alloc,
        statements,
        levels,
        states,
        place,
        end,
        levels.space_at(place),
    )
}
