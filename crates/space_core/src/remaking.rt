//! Tells that the spaces below see too.
ghost use Rattle.std.specs.Prelude.{◌≡◌, ◌<◌, ◌≤◌, length, slice_index_or, IfOk, OnOk, OnErr};
ghost use Rattle.space_core.specs.Anew.{IsAnew};
ghost use Rattle.space_core.specs.Fates.{seeing, with_fate, with_fates};
ghost use Rattle.space_core.specs.Telling.{IsToldThrough, IsFated, IsSetBack};
ghost use Rattle.space_core.specs.declared.level.Level.{Level};

use crate::fates::{Fate, Seen, fates_below};
use crate::homes::has_below;
use crate::level::Level;
use crate::telling::{self, note};
use crate::tree::fail;
use oz_base::{Copies, SpaceName};
use oz_semantics::Tell;
use std::alloc::{AllocError, Global};
use term_store::Store;

/// The space sees this from now on.
fn see(alloc: Global, level: &mut Level, seen: Seen)
    ensures { level.new ≡ seeing seen level.old }
{
    level.constraints.see(alloc, seen.store);
    level.told_from = seen.told_from;
    level.touched = seen.touched;
    level.traced = seen.traced;
}

/// The space at a place has its fate.
fn meet(alloc: Global, levels: &mut Vec<Level>, place: usize, fate: Fate)
    requires { place < length levels.old.items }
    ensures { levels.new.items ≡ with_fate place fate levels.old.items }
{
    match fate {
        Fate::Stays | Fate::Bare => {}
        Fate::Gone => {
            let _gone = levels.remove(place);
        }
        Fate::Fails => fail(alloc, &mut levels[place]),
        Fate::Sees(seen) => see(alloc, &mut levels[place], seen),
    }
}

/// Each space has its fate, the last one first. It takes no memory.
fn meet_all(alloc: Global, levels: &mut Vec<Level>, mut fates: Vec<Fate>)
    requires { length fates.items ≤ length levels.old.items }
    ensures { levels.new.items ≡ with_fates fates.items levels.old.items }
{
    while let Some(fate) = fates.pop() {
        let place = fates.len();
        meet(alloc, levels, place, fate);
    }
}

/// The stores of all spaces below the one at a place are made anew, by what the space itself sees and by what they were told, but for
/// those that are bare. Those that then see what is inconsistent fail. Where it is refused, nothing changes.
pub fn remake(
    alloc: Global,
    levels: &mut Vec<Level>,
    place: usize,
    space: &SpaceName,
) -> Result<(), AllocError>
    ensures ok { OnOk result (IsAnew space.now levels.old.items levels.new.items) }
    ensures err { OnErr result (levels.new.items ≡ levels.old.items) }
{
    let fates = fates_below(alloc, levels.as_slice(), place, space)?;
    meet_all(alloc, levels, fates);
    Ok(())
}

/// What becomes of the spaces by what the one at a place was told. Where that is refused, the space sees what it saw before.
fn fates_or_back(
    alloc: Global,
    levels: &mut Vec<Level>,
    place: usize,
    before: Store,
) -> Result<Vec<Fate>, AllocError>
    requires { place < length levels.old.items }
    ensures fates { IfOk result (λ fates. IsFated place levels.old.items levels.new.items fates.items) }
    ensures err { OnErr result (IsSetBack place before levels.old.items levels.new.items) }
{
    match fates_below(alloc, levels.as_slice(), place, &levels[place].space) {
        Ok(fates) => Ok(fates),
        Err(refused) => {
            levels[place].constraints.see(alloc, before);
            Err(refused)
        }
    }
}

/// Tells the space at a place, of which it is known whether all variables are those of the space and of spaces above it, and all spaces
/// below it.
#[inline(never)]
fn tell_all(
    alloc: Global,
    levels: &mut Vec<Level>,
    place: usize,
    home: bool,
    tells: &[Tell],
) -> Result<bool, AllocError>
    requires { place < length levels.old.items }
    ensures told { IfOk result (IsToldThrough place home tells.now levels.old.items levels.new.items) }
    ensures err { OnErr result (levels.new.items ≡ levels.old.items) }
{
    let level = &mut levels[place];
    if level.bare {
        return Err(AllocError);
    }
    let before = level.constraints.store().copied(alloc)?;
    let Some(noted) = level.constraints.tell(alloc, tells)? else {
        return Ok(false);
    };
    let fates = fates_or_back(alloc, levels, place, before)?;
    note(&mut levels[place], home, tells, noted);
    meet_all(alloc, levels, fates);
    Ok(true)
}

/// Tells the space at a place, of which it is known whether all variables are those of the space and of spaces above it. The spaces
/// below it see that too, and those that then see what is inconsistent fail. False exactly where it is inconsistent with what the space
/// itself sees: then nothing changes.
#[inline(always)]
pub fn tell_through(
    alloc: Global,
    levels: &mut Vec<Level>,
    place: usize,
    home: bool,
    tells: &[Tell],
) -> Result<bool, AllocError>
    requires { place < length levels.old.items }
    ensures told { IfOk result (IsToldThrough place home tells.now levels.old.items levels.new.items) }
    ensures err { OnErr result (levels.new.items ≡ levels.old.items) }
{
    if has_below(levels.as_slice(), &levels[place].space) {
        return tell_all(alloc, levels, place, home, tells);
    }
    telling::tell(alloc, &mut levels[place], home, tells)
}
