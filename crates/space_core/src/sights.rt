//! What a space sees, by what is kept of the spaces.
ghost use Rattle.std.specs.Prelude.{◌≡◌, Contains, position};
ghost use Rattle.oz_semantics.specs.Configurations.{view};
ghost use Rattle.oz_semantics.specs.Propagation.{is_due};
ghost use Rattle.space_core.specs.Shown.{shown_all, IsSound};

use crate::level::Level;
use crate::tree::parent_place;
use propagation::first_due;
use term_store::Store;

/// What a space sees: its own store, or where it is bare, that of the nearest space above it which is not.
pub fn store_of<'a>(levels: &'a [Level], level: &'a Level) -> &'a Store
    ensures { IsSound levels.now → Contains levels.now level.now → result.now ≡ view (shown_all levels.now) level.now.space }
{
    if !level.bare {
        return level.constraints.store();
    }
    if level.space.is_top() {
        return level.constraints.store();
    }
    match parent_place(levels, &level.space) {
        None => level.constraints.store(),
        Some(parent) => store_of(levels, &levels[parent]),
    }
}

/// The place of the first propagator of a space that is due. It looks at those that may be due, up to that; where the space is bare, at
/// all.
pub fn first_due_of(levels: &[Level], level: &Level) -> Option<usize>
    ensures { IsSound levels.now → Contains levels.now level.now → result ≡ position (is_due (view (shown_all levels.now) level.now.space)) level.now.constraints.propagators }
{
    let constraints = &level.constraints;
    if level.bare {
        let store = store_of(levels, level);
        return first_due(store, constraints.propagators().as_slice());
    }
    constraints.first_due()
}
