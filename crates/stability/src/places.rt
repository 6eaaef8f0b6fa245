//! The places of spaces.
ghost use Rattle.std.specs.Prelude.{◌≡◌, ◌-◌, ◌<◌, None, Some, MatchOption, length, option_copied, slice_get};
ghost use Rattle.oz_semantics.specs.Configurations.{is_of};
ghost use Rattle.oz_semantics.specs.Sights.{state_in};
ghost use Rattle.oz_semantics.specs.declared.configuration.Layer.{Layer};
ghost use Rattle.stability.specs.Known.{known, KnownAt};
ghost use Rattle.stability.specs.Places.{IsAbsent, IsFirst, from_place};

use crate::known::States;
use oz_base::{SpaceName, same_space};
use oz_semantics::State;
use space_core::Levels;

/// The place of a space's layer.
pub fn place_of(levels: &Levels, space: &SpaceName) -> Option<usize>
    ensures { MatchOption result (IsAbsent (is_of space.now) levels.now)
        (λ place. (l : Layer) × IsFirst (is_of space.now) levels.now place l) }
{
    levels.place(space)
}

/// The first place of a space from a place on.
fn place_from(levels: &Levels, from: usize, space: &SpaceName) -> Option<usize>
    ensures { result ≡ from_place (is_of space.now) levels.now from }
{
    for place in from..levels.len() {
        if same_space(levels.space_at(place), space) {
            return Some(place);
        }
    }
    None
}

/// The place of a space whose state is known.
pub fn known_place(levels: &Levels, states: &States, space: &SpaceName) -> Option<usize>
    ensures { MatchOption result (state_in (known levels.now states.now) space.now ≡ None) (KnownAt levels.now states.now space.now) }
{
    let from = levels.len().saturating_sub(states.len());
    place_from(levels, from, space)
}

/// The state that is known of the space at a place.
pub fn known_state<'a>(levels: &Levels, states: &'a States, place: usize) -> Option<&'a State>
    ensures { option_copied result ≡ slice_get states.now (place - (length levels.now - length states.now)) }
{
    let from = levels.len().saturating_sub(states.len());
    states.get(place.saturating_sub(from))
}
