//! By-need computations of a space that begin.
ghost use Rattle.std.specs.Prelude.{◌≡◌, ◌∷◌, [], false, not, slice_index_or, IfOk, OnOk, OnErr};
ghost use Rattle.std.specs.List.{list_any, fold};
ghost use Rattle.oz_base.specs.Lists.{is_empty};
ghost use Rattle.need_laws.specs.Needs.{has_triggers};
ghost use Rattle.oz_semantics.specs.Configurations.{applying};
ghost use Rattle.oz_semantics.specs.Triggers.{beginning};
ghost use Rattle.space_core.specs.Firing.{marked, unmarked, firing};
ghost use Rattle.space_core.specs.Shown.{shown_all, IsQuiet, IsChanged};
ghost use Rattle.space_core.specs.declared.level.Level.{Level};

use crate::edits::spawn;
use crate::level::Level;
use environments::Environment;
use oz_base::{Copies, Sequence};
use oz_semantics::{Code, Frame, Trigger};
use std::alloc::{AllocError, Global};

fn has_trigger(level: &Level) -> bool
    ensures { result ≡ not (is_empty level.now.triggers) }
{
    level.triggers.as_slice().first().is_some()
}

fn any_level(levels: &[Level]) -> bool
    ensures { result ≡ list_any (λ (l : Level). not (is_empty l.triggers)) levels.now }
{
    levels.iter().any(has_trigger)
}

/// Whether a space has by-need computations that have not begun.
pub fn has_triggers(levels: &[Level]) -> bool
    ensures { result ≡ has_triggers (shown_all levels.now) }
{
    any_level(levels)
}

/// Whether there is a mark at this place.
fn is_marked(marks: &[bool], place: usize) -> bool
    ensures { result ≡ slice_index_or marks.now place false }
{
    place < marks.len() && marks[place]
}

/// The triggers that are marked.
fn marked(
    alloc: Global,
    triggers: &[Trigger],
    marks: &[bool],
) -> Result<Sequence<Trigger>, AllocError>
    ensures { IfOk result (λ begun. begun ≡ marked marks.now triggers.now) }
{
    let mut begun = Sequence::new(alloc);
    for place in 0..triggers.len() {
        if is_marked(marks, place) {
            begun.push(triggers[place].copied(alloc)?)?;
        }
    }
    Ok(begun)
}

/// The triggers that are not.
fn unmarked(
    alloc: Global,
    triggers: &[Trigger],
    marks: &[bool],
) -> Result<Sequence<Trigger>, AllocError>
    ensures { IfOk result (λ left. left ≡ unmarked marks.now triggers.now) }
{
    let mut left = Sequence::new(alloc);
    for place in 0..triggers.len() {
        if !is_marked(marks, place) {
            left.push(triggers[place].copied(alloc)?)?;
        }
    }
    Ok(left)
}

/// `{P X}` of the procedure and the variable of a trigger.
fn frames_of(alloc: Global, trigger: &Trigger) -> Result<Vec<Frame>, AllocError>
    ensures { IfOk result (λ frames. frames.items ≡ applying trigger.now.procedure trigger.now.variable ∷ []) }
{
    let mut frames = Vec::new(alloc);
    frames.push(Frame {
        code: Code::Call {
            procedure: trigger.procedure.copied(alloc)?,
            argument: trigger.variable.copied(alloc)?,
        },
        environment: Environment::new(),
    })?;
    Ok(frames)
}

/// A thread begins that applies the procedure of a trigger to its variable.
fn begin(alloc: Global, level: &mut Level, trigger: &Trigger) -> Result<(), AllocError>
    ensures ok { OnOk result (IsQuiet (λ l. beginning l trigger.now) level.old level.new) }
    ensures err { OnErr result (level.new ≡ level.old) }
{
    let frames = frames_of(alloc, trigger)?;
    spawn(alloc, level, frames)
}

/// A thread begins for each of these triggers, one after another.
fn begin_all(alloc: Global, level: &mut Level, triggers: &[Trigger]) -> Result<(), AllocError>
    ensures ok { OnOk result (IsQuiet (λ l. fold beginning l triggers.now) level.old level.new) }
    ensures err { OnErr result (IsChanged level.old level.new) }
{
    for trigger in triggers {
        begin(alloc, level, trigger)?;
    }
    Ok(())
}

/// The marked triggers of the space begin, one after another, and leave it.
pub fn fire(alloc: Global, level: &mut Level, marks: &[bool]) -> Result<(), AllocError>
    ensures ok { OnOk result (IsQuiet (firing marks.now) level.old level.new) }
    ensures err { OnErr result (IsChanged level.old level.new) }
{
    let begun = marked(alloc, level.triggers.as_slice(), marks)?;
    level.triggers = unmarked(alloc, level.triggers.as_slice(), marks)?;
    begin_all(alloc, level, begun.as_slice())
}
