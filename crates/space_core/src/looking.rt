//! Where spaces stand among the others.
ghost use Rattle.std.specs.Prelude.{◌≡◌, true, Some, MatchOption, position};
ghost use Rattle.std.specs.Ordering.{nat_cmp};
ghost use Rattle.std.specs.Cmp.Lexicographic.{slice_cmp};
ghost use Rattle.oz_semantics.specs.Configurations.{is_of};
ghost use Rattle.oz_semantics.specs.declared.configuration.Layer.{Layer};
ghost use Rattle.space_core.specs.declared.level.Level.{Level};
ghost use Rattle.space_core.specs.Places.{IsAbsent, IsFirst};
ghost use Rattle.space_core.specs.Shown.{shown, shown_all, IsSound};

use crate::level::Level;
use oz_base::{SpaceName, same_space};
use std::cmp::Ordering;

/// How a space's name stands to another in their order.
fn name_order(level: &Level, space: &SpaceName) -> Ordering
    ensures { result ≡ slice_cmp nat_cmp level.now.space space.now }
{
    level.space.order(space)
}

/// Whether a space is the top, and stands first.
fn is_first(levels: &[Level], space: &SpaceName) -> bool
    ensures { result ≡ true → position (is_of space.now) (shown_all levels.now) ≡ Some 0 }
{
    match levels {
        [] => false,
        [level, ..] => space.is_top() && level.space.is_top(),
    }
}

/// Where a space stands if no older sibling of it, or of a space above it, has spaces below: as children are numbered from 1, at the sum of
/// the numbers that lead to it. It need not stand there.
fn guess(space: &SpaceName) -> usize {
    space.as_slice().iter().fold(0, |place: usize, number| {
        place.saturating_add(*number as usize)
    })
}

/// Whether a space stands at a place.
fn is_at(levels: &[Level], space: &SpaceName, place: usize) -> bool
    requires { IsSound levels.now }
    ensures { result ≡ true → position (is_of space.now) (shown_all levels.now) ≡ Some place }
{
    match levels.get(place) {
        Some(level) => same_space(&level.space, space),
        None => false,
    }
}

/// The place of a space. The top is found at once.
#[inline(always)]
pub fn level_position(levels: &[Level], space: &SpaceName) -> Option<usize>
    requires { IsSound levels.now }
    ensures { result ≡ position (is_of space.now) (shown_all levels.now) }
{
    if is_first(levels, space) {
        return Some(0);
    }
    inner_position(levels, space)
}

/// The same. A space that stands where it is guessed to stand is found at once. For another one, half of those that are left fall away
/// with each look, since the spaces stand in the order of their names.
#[inline(never)]
fn inner_position(levels: &[Level], space: &SpaceName) -> Option<usize>
    requires { IsSound levels.now }
    ensures { result ≡ position (is_of space.now) (shown_all levels.now) }
{
    let place = guess(space);
    if is_at(levels, space, place) {
        return Some(place);
    }
    levels
        .binary_search_by(|level| name_order(level, space))
        .ok()
}

/// The place of a space, with what a search of its layer comes to.
#[inline(always)]
pub fn level_place(levels: &[Level], space: &SpaceName) -> Option<usize>
    requires { IsSound levels.now }
    ensures { MatchOption result (IsAbsent (is_of space.now) (shown_all levels.now))
        (λ place. (l : Layer) × IsFirst (is_of space.now) (shown_all levels.now) place l) }
{
    level_position(levels, space)
}

fn position_in(levels: &[Level], space: &SpaceName) -> Option<usize>
    ensures { result ≡ position (λ (l : Level). is_of space.now (shown l)) levels.now }
{
    levels
        .iter()
        .position(|level| same_space(&level.space, space))
}

fn changed_position(levels: &[Level], space: &SpaceName) -> Option<usize>
    ensures { result ≡ position (is_of space.now) (shown_all levels.now) }
{
    position_in(levels, space)
}

/// The same amid a change, where no order is known. It looks at all spaces.
pub fn changed_place(levels: &[Level], space: &SpaceName) -> Option<usize>
    ensures { MatchOption result (IsAbsent (is_of space.now) (shown_all levels.now))
        (λ place. (l : Layer) × IsFirst (is_of space.now) (shown_all levels.now) place l) }
{
    changed_position(levels, space)
}
