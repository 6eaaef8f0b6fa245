//! Which spaces gave out a variable.
ghost use Rattle.std.specs.Prelude.{◌≡◌, ◌<◌, ◌+◌, ◌&&◌, length, slice_get};
ghost use Rattle.std.specs.List.{list_any, list_all};
ghost use Rattle.oz_base.specs.Lists.{holds_of};
ghost use Rattle.oz_semantics.specs.Names.{is_below, is_properly_below};
ghost use Rattle.oz_semantics.specs.Store.{named_by};
ghost use Rattle.space_core.specs.Shown.{shown, shown_all, gave_out, is_home, is_outer, IsSound};
ghost use Rattle.oz_semantics.specs.declared.configuration.Layer.{Layer};
ghost use Rattle.space_core.specs.Telling.{has_below};
ghost use Rattle.space_core.specs.declared.level.Level.{Level};

use crate::level::Level;
use crate::looking::level_position;
use oz_base::{Ident, SpaceName, same_space};
use oz_semantics::Tell;
use term_store::fields_of;

/// Whether the space gave out the variable.
fn gave_out(level: &Level, variable: &Ident) -> bool
    ensures { result ≡ gave_out variable.now (shown level.now) }
{
    variable.number < level.numbers.variable && same_space(&level.space, &variable.space)
}

/// Whether another space is this one or below it.
fn is_above(space: &SpaceName, other: &SpaceName) -> bool
    ensures { result ≡ is_below space.now other.now }
{
    if space.is_top() {
        return true;
    }
    space.is_above(other)
}

/// Whether another space is properly below this one.
pub fn is_properly_above(space: &SpaceName, other: &SpaceName) -> bool
    ensures { result ≡ is_properly_below space.now other.now }
{
    if other.is_top() {
        return false;
    }
    is_above(space, other) && !same_space(space, other)
}

fn gave_home(level: &Level, space: &SpaceName, variable: &Ident) -> bool
    ensures { result ≡ (gave_out variable.now (shown level.now) && is_below level.now.space space.now) }
{
    gave_out(level, variable) && is_above(&level.space, space)
}

fn gave_outer(level: &Level, space: &SpaceName, variable: &Ident) -> bool
    ensures { result ≡ (gave_out variable.now (shown level.now) && is_properly_below level.now.space space.now) }
{
    gave_out(level, variable) && is_properly_above(&level.space, space)
}

fn any_home(levels: &[Level], space: &SpaceName, variable: &Ident) -> bool
    ensures { result ≡ list_any (λ (l : Level). gave_out variable.now (shown l) && is_below (shown l).space space.now) levels.now }
{
    levels.iter().any(|level| gave_home(level, space, variable))
}

/// Whether the space or one above it gave out the variable.
fn is_home(levels: &[Level], space: &SpaceName, variable: &Ident) -> bool
    ensures { result ≡ is_home (shown_all levels.now) space.now variable.now }
{
    any_home(levels, space, variable)
}

fn any_outer(levels: &[Level], space: &SpaceName, variable: &Ident) -> bool
    ensures { result ≡ list_any (λ (l : Level). gave_out variable.now (shown l) && is_properly_below (shown l).space space.now) levels.now }
{
    levels
        .iter()
        .any(|level| gave_outer(level, space, variable))
}

/// Whether a space above it gave out the variable.
pub fn is_outer(levels: &[Level], space: &SpaceName, variable: &Ident) -> bool
    ensures { result ≡ is_outer (shown_all levels.now) space.now variable.now }
{
    any_outer(levels, space, variable)
}

fn any_below(levels: &[Level], space: &SpaceName) -> bool
    ensures { result ≡ list_any (λ (l : Level). is_properly_below space.now (shown l).space) levels.now }
{
    levels
        .iter()
        .any(|level| is_properly_above(space, &level.space))
}

/// Whether there are spaces below this one.
pub fn has_below(levels: &[Level], space: &SpaceName) -> bool
    ensures { result ≡ has_below (shown_all levels.now) space.now }
{
    any_below(levels, space)
}

/// Whether the space behind that at a place, if there is one, is properly below.
fn is_next_below(levels: &[Level], place: usize, space: &SpaceName) -> bool
    requires { place < length levels.now }
    ensures { result ≡ holds_of (λ (l : Layer). is_properly_below space.now l.space) (slice_get (shown_all levels.now) (place + 1)) }
{
    match levels.get(place + 1) {
        None => false,
        Some(next) => is_properly_above(space, &next.space),
    }
}

/// The same where the spaces stand in their order: all that is below a space stands right behind it.
pub fn has_next_below(levels: &[Level], space: &SpaceName) -> bool
    requires { IsSound levels.now }
    ensures { result ≡ has_below (shown_all levels.now) space.now }
{
    match level_position(levels, space) {
        None => has_below(levels, space),
        Some(place) => is_next_below(levels, place, space),
    }
}

fn are_home(levels: &[Level], space: &SpaceName, variables: &[Ident]) -> bool
    ensures { result ≡ list_all (is_home (shown_all levels.now) space.now) variables.now }
{
    variables
        .iter()
        .all(|variable| is_home(levels, space, variable))
}

/// Whether all variables are those of the space and of spaces above it that the tell names.
fn names_home(levels: &[Level], space: &SpaceName, tell: &Tell) -> bool
    ensures { result ≡ list_all (is_home (shown_all levels.now) space.now) (named_by tell.now) }
{
    match tell {
        Tell::Equal { left, right } => {
            is_home(levels, space, left) && is_home(levels, space, right)
        }
        Tell::Is { variable, value } => {
            is_home(levels, space, variable) && are_home(levels, space, fields_of(value))
        }
        Tell::Within { variable, .. } => is_home(levels, space, variable),
    }
}

/// Whether all variables are those of the space and of spaces above it that the tells name.
pub fn all_home(levels: &[Level], space: &SpaceName, tells: &[Tell]) -> bool
    ensures { result ≡ list_all (λ t. list_all (is_home (shown_all levels.now) space.now) (named_by t)) tells.now }
{
    tells.iter().all(|tell| names_home(levels, space, tell))
}
