//! Which propagators are due (CTM 12.4): the least of them runs before any thread steps.
ghost use Rattle.std.specs.Prelude.{◌≡◌, ◌<◌, ◌≤◌, None, length, MatchOption};
ghost use Rattle.std.specs.List.{list_any};
ghost use Rattle.oz_semantics.specs.Configurations.{view};
ghost use Rattle.oz_semantics.specs.Schedule.{least_due};
ghost use Rattle.oz_semantics.specs.Spaces.{has_due};
ghost use Rattle.view_laws.specs.Queues.{is_due_below};
ghost use Rattle.oz_semantics.specs.declared.configuration.Layer.{Layer};
ghost use Rattle.space_core.specs.Levels.{OfLayer};
ghost use Rattle.stability.specs.Due.{due_place, IsLeastDue};
ghost use Rattle.stability.specs.Parts.{part};

use crate::parts::end_of;
use crate::places::place_of;
use oz_base::SpaceName;
use oz_semantics::Status;
use space_core::Levels;

/// A propagator that is due: the place of its space, and its own among the propagators of that.
#[derive(Clone, Copy)]
pub struct DuePropagator {
    pub place: usize,
    pub index: usize,
}

/// The place of the first propagator that is due, of the space at a place, where that is open.
fn due_at(levels: &Levels, place: usize) -> Option<usize>
    requires { place < length levels.now }
    ensures { OfLayer levels.now place (λ l. result ≡ due_place (view levels.now l.space) l) }
{
    match levels.status_at(place) {
        Status::Open => levels.first_due_at(place),
        Status::Failed | Status::Raised(_) | Status::Merged => None,
    }
}

/// The least propagator that is due: of the first space in the order of names that has one, the first that came. It looks at the domains
/// of the variables of those propagators alone that may be due.
pub fn least_due(levels: &Levels) -> Option<DuePropagator>
    ensures { MatchOption result (least_due levels.now ≡ None) (IsLeastDue levels.now) }
{
    if !levels.has_propagators() {
        return None;
    }
    levels.is_tree();
    for place in 0..levels.len() {
        if let Some(index) = due_at(levels, place) {
            return Some(DuePropagator { place, index });
        }
    }
    None
}

/// Whether the space at a place is open and has a propagator that is due.
pub fn has_due_at(levels: &Levels, place: usize) -> bool
    requires { place < length levels.now }
    ensures { OfLayer levels.now place (λ l. result ≡ has_due (view levels.now l.space) l) }
{
    due_at(levels, place).is_some()
}

/// Whether one of the spaces from one place to another has a propagator that is due.
fn has_due_between(levels: &Levels, from: usize, to: usize) -> bool
    requires ordered { from ≤ to }
    requires within { to ≤ length levels.now }
    ensures { result ≡ list_any (λ (l : Layer). has_due (view levels.now l.space) l) (part levels.now from to) }
{
    for place in from..to {
        if has_due_at(levels, place) {
            return true;
        }
    }
    false
}

/// Whether a propagator is due of the space or of a space below it.
pub fn is_due_below(levels: &Levels, space: &SpaceName) -> bool
    ensures { result ≡ is_due_below levels.now space.now }
{
    if !levels.has_propagators() {
        return false;
    }
    levels.is_tree();
    let Some(place) = place_of(levels, space) else {
        return false;
    };
    has_due_between(levels, place, end_of(levels, place))
}
