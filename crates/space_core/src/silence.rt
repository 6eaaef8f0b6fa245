//! What a space's store says of the variables of the spaces above it.
ghost use Rattle.std.specs.Prelude.{◌≡◌, ◌&&◌, ◌||◌, not, option_copied, Contains};
ghost use Rattle.std.specs.List.{list_all, list_any};
ghost use Rattle.oz_base.specs.Lists.{iff};
ghost use Rattle.oz_semantics.specs.Store.{same, value_of, domain_of, named_by};
ghost use Rattle.oz_semantics.specs.Names.{parent_of};
ghost use Rattle.oz_semantics.specs.Configurations.{view, ancestor_variables};
ghost use Rattle.oz_semantics.specs.Spaces.{values_eq, domains_eq, alike_on, is_held};
ghost use Rattle.view_laws.specs.Touched.{alike_at};
ghost use Rattle.std.specs.Prelude.{slice_get};
ghost use Rattle.space_core.specs.Shown.{shown_all, is_outer, IsSound};
ghost use Rattle.space_core.specs.Silence.{equal_alike, variable_alike, holds_variable, tell_equal, told_alike, tell_alike, tell_holds, passes, meets, is_traced};
ghost use Rattle.space_core.specs.declared.level.Level.{Level};

use crate::domains::domains_eq;
use crate::homes::is_outer;
use crate::level::Level;
use crate::sights::store_of;
use crate::tree::parent_place;
use oz_base::{Ident, SpaceName, same_space};
use oz_semantics::{Tell, Value};
use term_store::{Store, fields_of, is_like};

fn values_eq(left: Option<&Value>, right: Option<&Value>) -> bool
    ensures { result ≡ values_eq (option_copied left.entry) (option_copied right.entry) }
{
    match (left, right) {
        (None, None) => true,
        (Some(left), Some(right)) => is_like(left, right),
        _ => false,
    }
}

fn same_value(one: &Store, other: &Store, variable: &Ident) -> bool
    ensures { result ≡ values_eq (value_of one.now variable.now) (value_of other.now variable.now) }
{
    values_eq(one.value(variable), other.value(variable))
}

fn same_domain(one: &Store, other: &Store, variable: &Ident) -> bool
    ensures { result ≡ domains_eq (domain_of one.now variable.now) (domain_of other.now variable.now) }
{
    domains_eq(one.domain(variable), other.domain(variable))
}

/// Whether a variable has the same value and the same domain in both.
fn is_alike(one: &Store, other: &Store, variable: &Ident) -> bool
    ensures { result ≡ alike_at one.now other.now variable.now }
{
    same_value(one, other, variable) && same_domain(one, other, variable)
}

fn iff(left: bool, right: bool) -> bool
    ensures { result ≡ iff left right }
{
    if left { right } else { !right }
}

fn same_equality(one: &Store, other: &Store, left: &Ident, right: &Ident) -> bool
    ensures { result ≡ iff (same one.now left.now right.now) (same other.now left.now right.now) }
{
    iff(one.same(left, right), other.same(left, right))
}

fn equal_alike(
    levels: &[Level],
    space: &SpaceName,
    one: &Store,
    other: &Store,
    left: &Ident,
    right: &Ident,
) -> bool
    ensures { result ≡ equal_alike (shown_all levels.now) space.now one.now other.now left.now right.now }
{
    !is_outer(levels, space, right) || same_equality(one, other, left, right)
}

fn all_equal_alike(
    levels: &[Level],
    space: &SpaceName,
    one: &Store,
    other: &Store,
    left: &Ident,
    names: &[Ident],
) -> bool
    ensures { result ≡ list_all (equal_alike (shown_all levels.now) space.now one.now other.now left.now) names.now }
{
    names.iter().all(|right| equal_alike(levels, space, one, other, left, right))
}

fn variable_alike(
    levels: &[Level],
    space: &SpaceName,
    one: &Store,
    other: &Store,
    names: &[Ident],
    variable: &Ident,
) -> bool
    ensures { result ≡ variable_alike (shown_all levels.now) space.now one.now other.now names.now variable.now }
{
    !is_outer(levels, space, variable)
        || (is_alike(one, other, variable)
            && all_equal_alike(levels, space, one, other, variable, names))
}

/// Whether two views have the same of those of the variables that are of spaces above.
pub fn all_alike(
    levels: &[Level],
    space: &SpaceName,
    one: &Store,
    other: &Store,
    names: &[Ident],
) -> bool
    ensures { result ≡ list_all (variable_alike (shown_all levels.now) space.now one.now other.now names.now) names.now }
{
    names.iter().all(|variable| variable_alike(levels, space, one, other, names, variable))
}

fn tell_equal(
    levels: &[Level],
    space: &SpaceName,
    one: &Store,
    other: &Store,
    left: &Ident,
    tell: &Tell,
) -> bool
    ensures { result ≡ tell_equal (shown_all levels.now) space.now one.now other.now left.now tell.now }
{
    match tell {
        Tell::Equal { left: x, right: y } => {
            equal_alike(levels, space, one, other, left, x)
                && equal_alike(levels, space, one, other, left, y)
        }
        Tell::Is { variable, value } => {
            equal_alike(levels, space, one, other, left, variable)
                && all_equal_alike(levels, space, one, other, left, fields_of(value))
        }
        Tell::Within { variable, .. } => equal_alike(levels, space, one, other, left, variable),
    }
}

fn equal_at(
    levels: &[Level],
    space: &SpaceName,
    one: &Store,
    other: &Store,
    left: &Ident,
    place: u64,
) -> bool
    ensures { result ≡ passes (tell_equal (shown_all levels.now) space.now one.now other.now left.now) (slice_get one.now place) }
{
    match one.told_at(place) {
        None => true,
        Some(tell) => tell_equal(levels, space, one, other, left, tell),
    }
}

fn told_equal(levels: &[Level], space: &SpaceName, one: &Store, other: &Store, left: &Ident) -> bool
    ensures { result ≡ list_all (tell_equal (shown_all levels.now) space.now one.now other.now left.now) one.now }
{
    for place in 0..one.len() {
        if !equal_at(levels, space, one, other, left, place) {
            return false;
        }
    }
    true
}

#[tactic(auto, unfolding(crate::specs::Silence::told_alike))]
fn told_alike(
    levels: &[Level],
    space: &SpaceName,
    one: &Store,
    other: &Store,
    variable: &Ident,
) -> bool
    ensures { result ≡ told_alike (shown_all levels.now) space.now one.now other.now variable.now }
{
    !is_outer(levels, space, variable)
        || (is_alike(one, other, variable) && told_equal(levels, space, one, other, variable))
}

fn all_told_alike(
    levels: &[Level],
    space: &SpaceName,
    one: &Store,
    other: &Store,
    names: &[Ident],
) -> bool
    ensures { result ≡ list_all (told_alike (shown_all levels.now) space.now one.now other.now) names.now }
{
    names
        .iter()
        .all(|variable| told_alike(levels, space, one, other, variable))
}

fn tell_alike(levels: &[Level], space: &SpaceName, one: &Store, other: &Store, tell: &Tell) -> bool
    ensures { result ≡ tell_alike (shown_all levels.now) space.now one.now other.now tell.now }
{
    match tell {
        Tell::Equal { left, right } => {
            told_alike(levels, space, one, other, left)
                && told_alike(levels, space, one, other, right)
        }
        Tell::Is { variable, value } => {
            told_alike(levels, space, one, other, variable)
                && all_told_alike(levels, space, one, other, fields_of(value))
        }
        Tell::Within { variable, .. } => told_alike(levels, space, one, other, variable),
    }
}

fn alike_at(levels: &[Level], space: &SpaceName, one: &Store, other: &Store, place: u64) -> bool
    ensures { result ≡ passes (tell_alike (shown_all levels.now) space.now one.now other.now) (slice_get one.now place) }
{
    match one.told_at(place) {
        None => true,
        Some(tell) => tell_alike(levels, space, one, other, tell),
    }
}

/// Whether two views have the same of all variables of spaces above that the first names.
pub fn named_alike(levels: &[Level], space: &SpaceName, one: &Store, other: &Store) -> bool
    ensures { result ≡ list_all (tell_alike (shown_all levels.now) space.now one.now other.now) one.now }
{
    for place in 0..one.len() {
        if !alike_at(levels, space, one, other, place) {
            return false;
        }
    }
    true
}

fn holds_variable(
    levels: &[Level],
    space: &SpaceName,
    store: &Store,
    variable: &Ident,
    name: &Ident,
) -> bool
    ensures { result ≡ holds_variable (shown_all levels.now) space.now store.now variable.now name.now }
{
    is_outer(levels, space, name) && store.same(variable, name)
}

/// Whether the variable is equal to one of these that is of a space above.
pub fn any_holds(
    levels: &[Level],
    space: &SpaceName,
    store: &Store,
    variable: &Ident,
    names: &[Ident],
) -> bool
    ensures { result ≡ list_any (holds_variable (shown_all levels.now) space.now store.now variable.now) names.now }
{
    names.iter().any(|name| holds_variable(levels, space, store, variable, name))
}

fn tell_holds(
    levels: &[Level],
    space: &SpaceName,
    store: &Store,
    variable: &Ident,
    tell: &Tell,
) -> bool
    ensures { result ≡ tell_holds (shown_all levels.now) space.now store.now variable.now tell.now }
{
    match tell {
        Tell::Equal { left, right } => {
            holds_variable(levels, space, store, variable, left)
                || holds_variable(levels, space, store, variable, right)
        }
        Tell::Is {
            variable: told,
            value,
        } => {
            holds_variable(levels, space, store, variable, told)
                || any_holds(levels, space, store, variable, fields_of(value))
        }
        Tell::Within { variable: told, .. } => holds_variable(levels, space, store, variable, told),
    }
}

fn holds_at(
    levels: &[Level],
    space: &SpaceName,
    store: &Store,
    variable: &Ident,
    place: u64,
) -> bool
    ensures { result ≡ meets (tell_holds (shown_all levels.now) space.now store.now variable.now) (slice_get store.now place) }
{
    match store.told_at(place) {
        None => false,
        Some(tell) => tell_holds(levels, space, store, variable, tell),
    }
}

/// Whether the variable is equal to one of a space above that the view names.
pub fn named_holds(levels: &[Level], space: &SpaceName, store: &Store, variable: &Ident) -> bool
    ensures { result ≡ list_any (tell_holds (shown_all levels.now) space.now store.now variable.now) store.now }
{
    for place in 0..store.len() {
        if holds_at(levels, space, store, variable, place) {
            return true;
        }
    }
    false
}

fn is_traced(level: &Level, space: &SpaceName) -> bool
    ensures { result ≡ is_traced space.now level.now }
{
    !level.space.is_above(space) || level.traced
}

/// Whether the space and all spaces above it are traced.
fn all_traced(levels: &[Level], space: &SpaceName) -> bool
    ensures { result ≡ list_all (is_traced space.now) levels.now }
{
    levels.iter().all(|level| is_traced(level, space))
}

/// Whether a space has the same of the variables of the spaces above it as its parent.
pub fn is_silent(levels: &[Level], level: &Level) -> bool
    ensures { IsSound levels.now → Contains levels.now level.now
        → result ≡ alike_on (ancestor_variables (shown_all levels.now) level.now.space) (view (shown_all levels.now) level.now.space) (view (shown_all levels.now) (parent_of level.now.space)) }
{
    if level.space.is_top() {
        return true;
    }
    let Some(parent) = parent_place(levels, &level.space) else {
        return true;
    };
    let own = store_of(levels, level);
    let above = store_of(levels, &levels[parent]);
    if all_traced(levels, &level.space) {
        return all_alike(levels, &level.space, own, above, level.touched.as_slice());
    }
    named_alike(levels, &level.space, own, above)
}

/// Whether a variable, as the space sees it, has no value and is equal to a variable of a space above another.
pub fn is_held(levels: &[Level], level: &Level, space: &SpaceName, variable: &Ident) -> bool
    ensures { IsSound levels.now → Contains levels.now level.now
        → result ≡ is_held (view (shown_all levels.now) level.now.space) (ancestor_variables (shown_all levels.now) space.now) variable.now }
{
    if space.is_top() {
        return false;
    }
    let store = store_of(levels, level);
    if store.is_determined(variable) {
        return false;
    }
    if is_outer(levels, space, variable) {
        return true;
    }
    if store.is_alone(variable) {
        return false;
    }
    if !same_space(&level.space, space) {
        return named_holds(levels, space, store, variable);
    }
    if !all_traced(levels, space) {
        return named_holds(levels, space, store, variable);
    }
    any_holds(levels, space, store, variable, level.touched.as_slice())
}
