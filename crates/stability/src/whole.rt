//! What is asked of a whole configuration.
ghost use Rattle.std.specs.Prelude.{◌≡◌, ◌<◌, ◌++◌, false, map, filter, length, IfOk, OnOk};
ghost use Rattle.oz_semantics.specs.Names.{named};
ghost use Rattle.oz_semantics.specs.Sights.{can_step};
ghost use Rattle.oz_semantics.specs.Spaces.{ready_in, goes_on, state, states_of};
ghost use Rattle.oz_semantics.specs.Settling.{runnable_in, runnable};
ghost use Rattle.oz_semantics.specs.declared.configuration.Thread as running;
ghost use Rattle.space_core.specs.Levels.{OfLayer};
ghost use Rattle.stability.specs.Known.{known, Serves};

use crate::activity::subtree_goes_on;
use crate::behind::{states_from, states_of};
use crate::known::States;
use crate::parts::next_place;
use crate::places::place_of;
use crate::readiness::can_step;
use crate::state::{rested_at, state_at};
use oz_base::{Copies, Ident, SpaceName};
use oz_language::Statement;
use oz_semantics::{State, Status, Thread};
use space_core::Levels;
use std::alloc::{AllocError, Global};

/// Whether something of the space or of a space below it can step. It looks at the threads of these until one can, and first at the states
/// of all spaces behind it, where a space is a value.
pub fn goes_on(
    alloc: Global,
    statements: &[Statement],
    levels: &Levels,
    space: &SpaceName,
) -> Result<bool, AllocError>
    ensures { IfOk result (λ goes. goes ≡ goes_on statements.now levels.now space.now) }
{
    levels.is_tree();
    let Some(place) = place_of(levels, space) else {
        return Ok(false);
    };
    let states = states_from(alloc, statements, levels, next_place(levels, place))?;
    subtree_goes_on(alloc, statements, levels, &states, place)
}

/// The state of a space, if it is there. An error is for lack of memory.
pub fn space_state(
    alloc: Global,
    statements: &[Statement],
    levels: &Levels,
    space: &SpaceName,
) -> Result<Option<State>, AllocError>
    ensures { IfOk result (λ found. found ≡ state statements.now levels.now space.now) }
{
    let Some(place) = place_of(levels, space) else {
        return Ok(None);
    };
    let states = states_from(alloc, statements, levels, next_place(levels, place))?;
    let state = state_at(alloc, statements, levels, &states, place)?;
    Ok(Some(state))
}

/// The state of a space, if it is there, of which it is known that nothing in it or below it can step. The threads are not asked
/// for that again.
pub fn rested_state(
    alloc: Global,
    statements: &[Statement],
    levels: &Levels,
    space: &SpaceName,
) -> Result<Option<State>, AllocError>
    requires { goes_on statements.now levels.now space.now ≡ false }
    ensures { IfOk result (λ found. found ≡ state statements.now levels.now space.now) }
{
    levels.is_tree();
    let Some(place) = place_of(levels, space) else {
        return Ok(None);
    };
    let states = states_from(alloc, statements, levels, next_place(levels, place))?;
    let state = rested_at(alloc, statements, levels, &states, place)?;
    Ok(Some(state))
}

/// Adds those of these threads of the space at a place that can step, by the states that are known.
fn add_able(
    alloc: Global,
    statements: &[Statement],
    levels: &Levels,
    states: &States,
    place: usize,
    threads: &[Thread],
    ids: &mut Vec<Ident>,
) -> Result<(), AllocError>
    requires { place < length levels.now }
    ensures { OfLayer levels.now place (λ l. OnOk result (ids.new.items ≡ ids.old.items ++ map (λ (t : running.Thread). named l.space t.number)
        (filter (λ t. can_step (ready_in statements.now levels.now (known levels.now states.now) l.space t)) threads.now))) }
{
    let space = levels.space_at(place);
    for thread in threads {
        if can_step(alloc, statements, levels, states, place, thread)? {
            ids.push(Ident {
                space: space.copied(alloc)?,
                number: thread.number,
            })?;
        }
    }
    Ok(())
}

/// Adds the threads of the space at a place that can step.
fn add_runnable(
    alloc: Global,
    statements: &[Statement],
    levels: &Levels,
    states: &States,
    place: usize,
    ids: &mut Vec<Ident>,
) -> Result<(), AllocError>
    requires { place < length levels.now }
    ensures { Serves statements.now levels.now (known levels.now states.now) (states_of statements.now levels.now)
        → OfLayer levels.now place (λ l. OnOk result (ids.new.items ≡ ids.old.items ++ runnable_in statements.now levels.now l)) }
{
    match levels.status_at(place) {
        Status::Open => add_able(
            alloc,
            statements,
            levels,
            states,
            place,
            levels.threads_at(place),
            ids,
        ),
        Status::Failed | Status::Raised(_) | Status::Merged => Ok(()),
    }
}

/// All threads that can step, by name: space by space, and in the order of their numbers. It looks at each thread once, and before at the
/// states of all spaces, where a space is a value.
pub fn runnable(
    alloc: Global,
    statements: &[Statement],
    levels: &Levels,
) -> Result<Vec<Ident>, AllocError>
    ensures { IfOk result (λ ids. ids.items ≡ runnable statements.now levels.now) }
{
    let states = states_of(alloc, statements, levels)?;
    let mut ids = Vec::new(alloc);
    for place in 0..levels.len() {
        add_runnable(alloc, statements, levels, &states, place, &mut ids)?;
    }
    Ok(ids)
}
