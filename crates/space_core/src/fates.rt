//! What becomes of the spaces below one that was told more.
ghost use Rattle.std.specs.Prelude.{◌≡◌, ◌⊎◌, true, drop, length, IfOk, IfSome, OnOk};
ghost use Rattle.std.specs.List.{list_all};
ghost use Rattle.oz_semantics.specs.Store.{named_by};
ghost use Rattle.oz_semantics.specs.Settling.{may_fail};
ghost use Rattle.space_core.specs.Shown.{shown, shown_all, is_home};
ghost use Rattle.space_core.specs.Fates.{IsSeenUnder, IsUnder, IsAfter, IsParentAt, IsDecided, IsChosen, IsUpTo, IsLedTo, IsPathTo, AreFates, is_parent_at};
ghost use Rattle.space_core.specs.declared.fates.Fate.TheVariants.{Stays};

use crate::homes::{all_home, is_properly_above};
use crate::level::Level;
use crate::telling::drop_own;
use crate::tree::is_parent;
use oz_base::{Copies, Ident, Sequence, SpaceName};
use oz_semantics::{Status, Tell};
use std::alloc::{AllocError, Global};
use term_store::Store;

/// What a space sees.
#[derive(Drop)]
pub struct Seen {
    pub store: Store,
    /// As in a level.
    pub told_from: u64,
    pub touched: Sequence<Ident>,
    pub traced: bool,
}

/// What becomes of a space where another one was told more.
#[derive(Drop)]
pub enum Fate {
    /// It is not below the one that was told, and stays as it is.
    Stays,
    /// A space above it fails, so that it is gone.
    Gone,
    /// It fails, since what it sees is inconsistent.
    Fails,
    /// It sees this from now on.
    Sees(Seen),
    /// Nothing is kept of what it sees, so that it stays as it is.
    Bare,
}

/// What a store was told from a place on.
pub fn told_from(alloc: Global, store: &Store, from: u64) -> Result<Vec<Tell>, AllocError>
    ensures { IfOk result (λ tells. tells.items ≡ drop from store.now) }
{
    let mut tells = Vec::new(alloc);
    for place in from..store.len() {
        if let Some(tell) = store.told_at(place) {
            tells.push(tell.copied(alloc)?)?;
        }
    }
    Ok(tells)
}

/// Whether all variables that the space was told of are known or found to be those of the space and of spaces above it.
fn is_traced(levels: &[Level], level: &Level, tells: &[Tell]) -> bool
    requires { tells.now ≡ (shown level.now).tells }
    ensures { result ≡ true → (level.now.traced ≡ true) ⊎ (list_all (λ t. list_all (is_home (shown_all levels.now) level.now.space) (named_by t)) (shown level.now).tells ≡ true) }
{
    if level.traced {
        return true;
    }
    all_home(levels, &level.space, tells)
}

/// What a space sees that was told the same under a parent that sees this. None where that is inconsistent.
fn seen_under(
    alloc: Global,
    levels: &[Level],
    above: &Store,
    level: &Level,
) -> Result<Option<Seen>, AllocError>
    ensures { IfOk result (IsSeenUnder (shown_all levels.now) above.now level.now) }
{
    let tells = told_from(alloc, level.constraints.store(), level.told_from)?;
    let mut store = above.copied(alloc)?;
    let mut touched = Vec::new(alloc);
    if !store.tell(alloc, tells.as_slice(), &mut touched)? {
        return Ok(None);
    }
    drop_own(&level.space, &mut touched);
    Ok(Some(Seen {
        store,
        told_from: above.len(),
        touched: Sequence::from_vec(touched),
        traced: is_traced(levels, level, tells.as_slice()),
    }))
}

/// Whether a space of this status fails where it sees what is inconsistent.
fn may_fail(status: &Status) -> bool
    ensures { result ≡ may_fail status.now }
{
    match status {
        Status::Open | Status::Raised(_) => true,
        Status::Failed | Status::Merged => false,
    }
}

/// What becomes of a space that sees what is inconsistent, under a parent that sees this. It refuses where the space has failed
/// or become a part of another one before, and was told something since then: it would be left with what is inconsistent. No thread is
/// left in it that could tell it.
fn fall(levels: &[Level], above: &Store, level: &Level) -> Result<Fate, AllocError>
    requires { IsSeenUnder (shown_all levels.now) above.now level.now None }
    ensures { IfOk result (IsUnder (shown_all levels.now) above.now level.now) }
{
    if !may_fail(&level.status) {
        return Err(AllocError);
    }
    Ok(Fate::Fails)
}

/// What becomes of a space under a parent that sees this.
fn fate_under(
    alloc: Global,
    levels: &[Level],
    above: &Store,
    level: &Level,
) -> Result<Fate, AllocError>
    ensures { IfOk result (IsUnder (shown_all levels.now) above.now level.now) }
{
    if level.bare {
        return Ok(Fate::Bare);
    }
    match seen_under(alloc, levels, above, level)? {
        None => fall(levels, above, level),
        Some(seen) => Ok(Fate::Sees(seen)),
    }
}

/// What becomes of a space under a parent that stays as it is. It refuses where the parent is bare.
fn fate_beside(
    alloc: Global,
    levels: &[Level],
    parent: &Level,
    level: &Level,
) -> Result<Fate, AllocError>
    ensures { IfOk result (IsAfter (shown_all levels.now) parent.now Stays level.now) }
{
    if parent.bare {
        return Err(AllocError);
    }
    fate_under(alloc, levels, parent.constraints.store(), level)
}

/// What becomes of a space, by what becomes of its parent. It refuses where the parent is bare.
fn fate_after(
    alloc: Global,
    levels: &[Level],
    parent: &Level,
    above: &Fate,
    level: &Level,
) -> Result<Fate, AllocError>
    ensures { IfOk result (IsAfter (shown_all levels.now) parent.now above.now level.now) }
{
    match above {
        Fate::Stays => fate_beside(alloc, levels, parent, level),
        Fate::Sees(seen) => fate_under(alloc, levels, &seen.store, level),
        Fate::Fails | Fate::Gone => Ok(Fate::Gone),
        Fate::Bare => Err(AllocError),
    }
}

/// Whether the space at a place is there, and is the parent of a space.
fn is_parent_at(levels: &[Level], place: usize, space: &SpaceName) -> bool
    ensures { result ≡ is_parent_at levels.now space.now place }
{
    match levels.get(place) {
        None => false,
        Some(level) => is_parent(level, space),
    }
}

/// The place of the parent of a space among these, which are those of the space before it and of the spaces above that. What is not
/// above the space is taken off.
fn parent_on(levels: &[Level], path: &mut Vec<usize>, space: &SpaceName) -> Option<usize>
    ensures place { IfSome result (λ place. IsParentAt levels.now place space.now) }
    ensures path { IsUpTo (is_parent_at levels.now space.now) path.old.items path.new.items result }
{
    while !path.is_empty() {
        let place = path[path.len() - 1];
        if is_parent_at(levels, place, space) {
            return Some(place);
        }
        let _other = path.pop();
    }
    None
}

/// What becomes of a space below the one that was told, by what becomes of those before it.
fn fate_below(
    alloc: Global,
    levels: &[Level],
    fates: &[Fate],
    path: &mut Vec<usize>,
    level: &Level,
) -> Result<Fate, AllocError>
    ensures decided { IfOk result (IsDecided levels.now fates.now level.now) }
    ensures path { OnOk result (IsLedTo levels.now level.now.space path.old.items path.new.items) }
{
    let Some(place) = parent_on(levels, path, &level.space) else {
        return Err(AllocError);
    };
    let Some(above) = fates.get(place) else {
        return Err(AllocError);
    };
    fate_after(alloc, levels, &levels[place], above, level)
}

/// What becomes of the next space, by what becomes of those before it. If it is below the one that was told, its place comes to those of
/// the spaces above it, and what is not above it is taken off.
fn next_fate(
    alloc: Global,
    levels: &[Level],
    fates: &[Fate],
    path: &mut Vec<usize>,
    space: &SpaceName,
    level: &Level,
) -> Result<Fate, AllocError>
    ensures chosen { IfOk result (IsChosen space.now levels.now fates.now level.now) }
    ensures path { OnOk result (IsPathTo space.now levels.now (length fates.now) level.now.space path.old.items path.new.items) }
{
    if !is_properly_above(space, &level.space) {
        return Ok(Fate::Stays);
    }
    let fate = fate_below(alloc, levels, fates, path, level)?;
    path.push(fates.len())?;
    Ok(fate)
}

/// What becomes of each space, where the one at a place was told more, and those below it still see what they saw.
///
/// It takes the time and memory of what the spaces below were told themselves, and of a list of all spaces. Of a bare space no store is
/// made. It refuses where a space is below a bare one.
pub fn fates_below(
    alloc: Global,
    levels: &[Level],
    place: usize,
    space: &SpaceName,
) -> Result<Vec<Fate>, AllocError>
    ensures { IfOk result (λ fates. AreFates space.now levels.now fates.items) }
{
    let mut path = Vec::new(alloc);
    path.push(place)?;
    let mut fates = Vec::with_capacity(alloc, levels.len())?;
    for level in levels {
        let fate = next_fate(alloc, levels, fates.as_slice(), &mut path, space, level)?;
        fates.push(fate)?;
    }
    Ok(fates)
}
