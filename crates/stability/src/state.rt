//! The state of a space (CTM 12.4; Schulte 4 and 10), by the states that are known.
ghost use Rattle.std.specs.Prelude.{◌≡◌, ◌<◌, Option, false, length, option_map, IfOk};
ghost use Rattle.oz_semantics.specs.Sights.{Offer, count_of};
ghost use Rattle.oz_semantics.specs.Configurations.{view};
ghost use Rattle.oz_semantics.specs.Spaces.{subtree_goes_on, is_left, stable_state, open_state, state_by};
ghost use Rattle.oz_semantics.specs.declared.configuration.Status.TheVariants as status;
ghost use Rattle.space_core.specs.Levels.{OfLayer};
ghost use Rattle.stability.specs.Known.{known};

use crate::activity::subtree_goes_on;
use crate::known::States;
use crate::offers::first_size;
use crate::waits::waits_outside;
use oz_base::Copies;
use oz_language::Statement;
use oz_semantics::{State, Status};
use propagation::any_undecided;
use space_core::Levels;
use std::alloc::{AllocError, Global};

/// Whether something is left in the space at a place that waits: a thread, or a propagator that is not decided.
fn is_left(levels: &Levels, place: usize) -> bool
    requires { place < length levels.now }
    ensures { OfLayer levels.now place (λ l. result ≡ is_left (view levels.now l.space) l) }
{
    if !levels.threads_at(place).is_empty() {
        return true;
    }
    any_undecided(levels.store_at(place), levels.propagators_at(place))
}

/// The state of a stable space, by how many alternatives are offered and by whether something is left in it.
fn stable_state(size: Option<u64>, left: bool) -> State
    ensures { (offer : Option Offer) → size ≡ option_map count_of offer → result ≡ stable_state offer left }
{
    match size {
        Some(size) => State::Alternatives(size),
        None => { if left { State::Stuck } else { State::Solved } }
    }
}

/// The state of an open space at a place that does not go on.
fn rested_open(
    alloc: Global,
    statements: &[Statement],
    levels: &Levels,
    states: &States,
    place: usize,
) -> Result<State, AllocError>
    requires { place < length levels.now }
    ensures { OfLayer levels.now place (λ l. l.status ≡ status.Open → subtree_goes_on statements.now levels.now (known levels.now states.now) l.space ≡ false
        → IfOk result (λ state. state ≡ open_state statements.now levels.now (known levels.now states.now) l)) }
{
    if waits_outside(alloc, statements, levels, states, place)? {
        return Ok(State::Suspended);
    }
    if !levels.is_silent(place) {
        return Ok(State::Suspended);
    }
    let space = levels.space_at(place);
    let threads = levels.threads_at(place);
    let size = first_size(alloc, statements, space, levels.store_at(place), threads)?;
    Ok(stable_state(size, is_left(levels, place)))
}

/// The state of an open space at a place.
fn open_state(
    alloc: Global,
    statements: &[Statement],
    levels: &Levels,
    states: &States,
    place: usize,
) -> Result<State, AllocError>
    requires { place < length levels.now }
    ensures { OfLayer levels.now place (λ l. l.status ≡ status.Open → IfOk result (λ state. state ≡ open_state statements.now levels.now (known levels.now states.now) l)) }
{
    if subtree_goes_on(alloc, statements, levels, states, place)? {
        return Ok(State::Running);
    }
    rested_open(alloc, statements, levels, states, place)
}

/// The state of the space at a place, which does not go on.
pub fn rested_at(
    alloc: Global,
    statements: &[Statement],
    levels: &Levels,
    states: &States,
    place: usize,
) -> Result<State, AllocError>
    requires { place < length levels.now }
    ensures { OfLayer levels.now place (λ l. subtree_goes_on statements.now levels.now (known levels.now states.now) l.space ≡ false
        → IfOk result (λ state. state ≡ state_by statements.now levels.now (known levels.now states.now) l l.status)) }
{
    match levels.status_at(place) {
        Status::Open => rested_open(alloc, statements, levels, states, place),
        Status::Failed => Ok(State::Failed),
        Status::Merged => Ok(State::Merged),
        Status::Raised(exception) => Ok(State::Raised(exception.copied(alloc)?)),
    }
}

/// The state of the space at a place.
pub fn state_at(
    alloc: Global,
    statements: &[Statement],
    levels: &Levels,
    states: &States,
    place: usize,
) -> Result<State, AllocError>
    requires { place < length levels.now }
    ensures { OfLayer levels.now place (λ l. IfOk result (λ state. state ≡ state_by statements.now levels.now (known levels.now states.now) l l.status)) }
{
    match levels.status_at(place) {
        Status::Open => open_state(alloc, statements, levels, states, place),
        Status::Failed => Ok(State::Failed),
        Status::Merged => Ok(State::Merged),
        Status::Raised(exception) => Ok(State::Raised(exception.copied(alloc)?)),
    }
}
