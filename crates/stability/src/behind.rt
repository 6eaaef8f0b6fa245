//! The states of the spaces from the last to the first, each by those behind it: all that is below a space comes behind it.
ghost use Rattle.std.specs.Prelude.{◌≡◌, ◌≤◌, length, drop, IfOk};
ghost use Rattle.oz_semantics.specs.Spaces.{states_behind, states_of};
ghost use Rattle.stability.specs.Known.{known, Serves, ServesFrom};

use crate::known::States;
use crate::state::state_at;
use oz_language::Statement;
use space_core::Levels;
use std::alloc::{AllocError, Global};

/// The states of the spaces from a place on.
fn states_behind(
    alloc: Global,
    statements: &[Statement],
    levels: &Levels,
    from: usize,
) -> Result<States, AllocError>
    requires { from ≤ length levels.now }
    ensures { IfOk result (λ states. known levels.now states ≡ states_behind statements.now levels.now (drop from levels.now)) }
{
    let mut states = States::new(alloc);
    let mut place = levels.len();
    'levels: while from < place {
        place -= 1;
        let state = state_at(alloc, statements, levels, &states, place)?;
        states.push(state)?;
    }
    Ok(states)
}

/// The states by which threads go of the spaces before a place: those of the spaces from there on, or none where no space is a value.
pub fn states_from(
    alloc: Global,
    statements: &[Statement],
    levels: &Levels,
    from: usize,
) -> Result<States, AllocError>
    requires { from ≤ length levels.now }
    ensures { IfOk result (ServesFrom statements.now levels.now from) }
{
    if levels.has_spaces() {
        states_behind(alloc, statements, levels, from)
    } else {
        Ok(States::new(alloc))
    }
}

/// The states by which all threads go: those of all spaces, or none where no space is a value. Each space is looked at with all that is
/// below it.
pub fn states_of(
    alloc: Global,
    statements: &[Statement],
    levels: &Levels,
) -> Result<States, AllocError>
    ensures { IfOk result (λ states. Serves statements.now levels.now (known levels.now states) (states_of statements.now levels.now)) }
{
    states_from(alloc, statements, levels, 0)
}
