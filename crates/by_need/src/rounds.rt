//! Rounds of by-need computations that begin, until none that is left is needed.
ghost use Rattle.std.specs.Prelude.{◌≡◌, ◌≤◌, length, map, unwrap_or, IfOk, OnOk, OnErr};
ghost use Rattle.std.specs.List.{list_any, sum_by};
ghost use Rattle.oz_semantics.specs.Triggers.{is_needed_in, fired_for, triggered};
ghost use Rattle.oz_semantics.specs.declared.configuration.Layer.{Layer};
ghost use Rattle.by_need.specs.Rounds.{is_mark, fire_each, IsRound};

use crate::triggers::needed_at;
use oz_base::{Copies, Sequence};
use oz_language::Statement;
use space_core::Levels;
use stability::states_of;
use std::alloc::{AllocError, Global};

/// How many triggers there are. It refuses where they are 2^64 or more.
fn trigger_count(levels: &Levels) -> Result<usize, AllocError>
    ensures { IfOk result (λ count. count ≡ sum_by (λ (l : Layer). length l.triggers) levels.now) }
{
    let mut count: usize = 0;
    for place in 0..levels.len() {
        let more = levels.triggers_at(place).len();
        count = count.checked_add(more).ok_or(AllocError)?;
    }
    Ok(count)
}

/// Marks of the triggers that are needed, layer by layer.
fn marks_of(
    alloc: Global,
    statements: &[Statement],
    levels: &Levels,
) -> Result<Sequence<Sequence<bool>>, AllocError>
    ensures { IfOk result (λ marks. marks ≡ map (λ l. map (is_needed_in statements.now levels.now l) l.triggers) levels.now) }
{
    let states = states_of(alloc, statements, levels)?;
    let mut marks = Sequence::new(alloc);
    for place in 0..levels.len() {
        marks.push(needed_at(alloc, statements, levels, &states, place)?)?;
    }
    Ok(marks)
}

fn has_mark(marks: &Sequence<bool>) -> bool
    ensures { result ≡ list_any is_mark marks.now }
{
    marks.as_slice().iter().any(|mark| *mark)
}

fn is_marked(marks: &[Sequence<bool>]) -> bool
    ensures { result ≡ list_any (list_any is_mark) marks.now }
{
    marks.iter().any(has_mark)
}

/// The marked triggers begin, layer by layer.
fn fire_each(alloc: Global, levels: &mut Levels, marks: &[Sequence<bool>]) -> Result<(), AllocError>
    requires { length marks.now ≤ length levels.old }
    ensures { OnOk result (levels.new ≡ fire_each marks.now levels.old) }
{
    for place in 0..marks.len() {
        levels.fire_at(alloc, place, marks[place].as_slice())?;
    }
    Ok(())
}

/// What a round leaves of the layers: in each, the triggers that are needed give way to their threads. None exactly where none is needed. It
/// takes a copy of the layers only where one is.
fn round(
    alloc: Global,
    statements: &[Statement],
    levels: &Levels,
) -> Result<Option<Levels>, AllocError>
    ensures { IfOk result (IsRound statements.now levels.now) }
{
    let marks = marks_of(alloc, statements, levels)?;
    if !is_marked(marks.as_slice()) {
        return Ok(None);
    }
    let mut after = levels.copied(alloc)?;
    fire_each(alloc, &mut after, marks.as_slice())?;
    Ok(Some(after))
}

/// The layers after some rounds, if there was one.
fn latest<'a>(after: &'a Option<Levels>, levels: &'a Levels) -> &'a Levels
    ensures { result.now ≡ unwrap_or after.now levels.now }
{
    match after {
        None => levels,
        Some(after) => after,
    }
}

/// What is left of the layers after so many rounds at most. None if there was none.
fn rounds(
    alloc: Global,
    statements: &[Statement],
    levels: &Levels,
    most: usize,
) -> Result<Option<Levels>, AllocError>
    ensures { IfOk result (λ after. unwrap_or after levels.now ≡ fired_for statements.now most levels.now) }
{
    let mut after = None;
    let mut more = most;
    'passes: while more > 0 {
        match round(alloc, statements, latest(&after, levels))? {
            None => return Ok(after),
            Some(next) => after = Some(next),
        }
        more -= 1;
    }
    Ok(after)
}

/// Triggers that are needed give way to their threads, until no trigger that is left is needed. Where it is refused nothing changes.
pub fn fire(alloc: Global, statements: &[Statement], levels: &mut Levels) -> Result<(), AllocError>
    ensures ok { OnOk result (levels.new ≡ triggered statements.now levels.old) }
    ensures err { OnErr result (levels.new ≡ levels.old) }
{
    let most = trigger_count(levels)?;
    if let Some(after) = rounds(alloc, statements, levels, most)? {
        *levels = after;
    }
    Ok(())
}
