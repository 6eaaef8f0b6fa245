//! Tells of one space.
ghost use Rattle.std.specs.Prelude.{◌≡◌, ◌++◌, true, filter, IfOk, OnErr};
ghost use Rattle.std.specs.List.{list_any};
ghost use Rattle.view_laws.specs.Spaceless.{gives_space};
ghost use Rattle.space_core.specs.Shown.{is_other};
ghost use Rattle.space_core.specs.Telling.{IsMarked, IsLevelTold};

use crate::level::Level;
use oz_base::{Ident, SpaceName, same_space};
use oz_semantics::{Tell, Value};
use std::alloc::{AllocError, Global};

/// Whether a variable is not the space's own.
fn is_other(space: &SpaceName, variable: &Ident) -> bool
    ensures { result ≡ is_other space.now variable.now }
{
    !same_space(&variable.space, space)
}

/// Drops the space's own variables.
pub fn drop_own(space: &SpaceName, variables: &mut Vec<Ident>)
    ensures { variables.new.items ≡ filter (is_other space.now) variables.old.items }
{
    variables.retain(|variable| is_other(space, variable));
}

/// Whether a variable is a space.
fn gives_space(tell: &Tell) -> bool
    ensures { result ≡ gives_space tell.now }
{
    match tell {
        Tell::Is { variable: _, value } => matches!(value, Value::Space(_)),
        Tell::Equal { .. } | Tell::Within { .. } => false,
    }
}

fn any_gives_space(tells: &[Tell]) -> bool
    ensures { result ≡ list_any gives_space tells.now }
{
    tells.iter().any(gives_space)
}

/// Notes what the space was told, and these of the variables that are touched by it, of which it is known whether all variables are those
/// of the space and of spaces above it. The top notes no variables.
///
/// Where there is no memory to note them, the space is not traced any more.
#[inline(always)]
pub fn note(level: &mut Level, home: bool, tells: &[Tell], noted: Vec<Ident>)
    ensures { IsMarked home tells.now noted.items level.old level.new }
{
    level.traced = level.traced && home;
    level.knows_space = level.knows_space || any_gives_space(tells);
    if level.space.is_top() {
        level.constraints.reuse(noted);
        return;
    }
    note_others(level, noted);
}

/// Notes those of the variables that are not the space's own. Where there is no memory for that, the space is not traced any more.
#[inline(never)]
fn note_others(level: &mut Level, mut noted: Vec<Ident>)
    ensures left { level.new ≡ record level.old { touched = level.new.touched; traced = level.new.traced } }
    ensures notes { level.new.traced ≡ true → (level.old.traced ≡ true) × (level.new.touched ≡ level.old.touched ++ filter (is_other level.old.space) noted.items) }
{
    drop_own(&level.space, &mut noted);
    if level.touched.append(noted).is_err() {
        level.traced = false;
    }
}

/// Tells a space more, of which it is known whether all variables are those of the space and of spaces above it. False exactly where
/// it is inconsistent with what the space sees: then nothing changes.
///
/// It refuses for want of memory, and a space that is bare. Where there is no memory to note what is touched, the space is not traced any
/// more.
pub fn tell(
    alloc: Global,
    level: &mut Level,
    home: bool,
    tells: &[Tell],
) -> Result<bool, AllocError>
    ensures told { IfOk result (IsLevelTold home tells.now level.old level.new) }
    ensures err { OnErr result (level.new ≡ level.old) }
{
    if level.bare {
        return Err(AllocError);
    }
    let Some(noted) = level.constraints.tell(alloc, tells)? else {
        return Ok(false);
    };
    note(level, home, tells, noted);
    Ok(true)
}
