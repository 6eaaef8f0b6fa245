//! What follows a step that told nothing: what no other thread can do has changed.
ghost use Rattle.std.specs.Prelude.{◌≡◌, ◌∷◌, ◌&&◌, [], List, Some, true, false, drop, option_copied, option_to_list};
ghost use Rattle.std.specs.List.{list_all, list_any};
ghost use Rattle.oz_base.specs.Lists.{first};
ghost use Rattle.oz_semantics.specs.Configurations.{layer_of};
ghost use Rattle.oz_semantics.specs.Changes.{Change, changed_all};
ghost use Rattle.oz_semantics.specs.Steps.{went_on, without_top};
ghost use Rattle.oz_semantics.specs.declared.configuration.Layer.{Layer};
ghost use Rattle.oz_semantics.specs.declared.configuration.Frame.{Frame};
ghost use Rattle.oz_semantics.specs.declared.outcome.Stepped.TheVariants.{Moved};
ghost use Rattle.space_core.specs.Advances.{taken_on};
ghost use Rattle.space_core.specs.Telling.{has_below};
ghost use Rattle.quiet_laws.specs.Unknown.{given_by};
ghost use Rattle.unneeded_laws.specs.Unneeded.{adds_trigger, is_waiting};
ghost use Rattle.oz_machine.specs.Courses.{config_of, stepping};
ghost use Rattle.oz_machine.specs.Quiet.{top_steps, AreAwake, IsHead, LeavesOthers, names_in, news_of};
ghost use Rattle.oz_machine.specs.Asleep.{AreLaidBut};
ghost use Rattle.oz_sleep.specs.Laid.{AreLaid};
ghost use Rattle.oz_sleep.specs.declared.sleeping.Sleeping.{Sleeping};

use crate::course::Course;
use crate::declarations::declares;
use crate::following::{follow, leave_alone};
use crate::settling::steps;
use oz_base::Ident;
use oz_language::{Kernel, Statement};
use oz_semantics::Stepped;
use space_core::Levels;
use std::alloc::Global;

/// Whether a thread can step now by what its space sees, as far as memory is there to find that out.
pub fn is_known_able(alloc: Global, statements: &[Statement], levels: &Levels, id: &Ident) -> bool
    ensures { result ≡ true → top_steps statements.now levels.now id.now ≡ true }
{
    if declares(statements, levels, id) {
        return true;
    }
    match steps(alloc, statements, levels, id) {
        Ok(steps) => steps,
        Err(_) => false,
    }
}

/// Whether a thread is known to wait for no variable: it has ended, or it can step.
fn is_known_awake(alloc: Global, statements: &[Statement], levels: &Levels, id: &Ident) -> bool
    ensures { result ≡ true → is_waiting statements.now levels.now id.now ≡ false }
{
    if levels.top_frame(id).is_none() {
        return true;
    }
    is_known_able(alloc, statements, levels, id)
}

/// Whether neither the thread that stepped nor the one that it started, if it did, waits for a variable, as far as that is known.
fn all_known_awake(
    alloc: Global,
    statements: &[Statement],
    levels: &Levels,
    mover: &Ident,
    started: Option<&Ident>,
) -> bool
    ensures { result ≡ true → list_any (is_waiting statements.now levels.now) (mover.now ∷ option_to_list (option_copied started.entry)) ≡ false }
{
    if !is_known_awake(alloc, statements, levels, mover) {
        return false;
    }
    match started {
        None => true,
        Some(started) => is_known_awake(alloc, statements, levels, started),
    }
}

/// Whether the thread that stepped can step, and so can the one that it started, if it did, as far as that is known.
fn all_known_able(
    alloc: Global,
    statements: &[Statement],
    levels: &Levels,
    mover: &Ident,
    started: Option<&Ident>,
) -> bool
    ensures { result ≡ true → list_all (top_steps statements.now levels.now) (mover.now ∷ option_to_list (option_copied started.entry)) ≡ true }
{
    if !is_known_able(alloc, statements, levels, mover) {
        return false;
    }
    match started {
        None => true,
        Some(started) => is_known_able(alloc, statements, levels, started),
    }
}

/// Whether a step may have given out variables of a space with others below it.
fn gives_above(levels: &Levels, mover: &Ident, gives: bool) -> bool
    ensures { result ≡ (gives && has_below levels.now mover.now.space) }
{
    gives && levels.has_below(&mover.space)
}

/// Whether both can go on as if no space were a value, as far as that is known.
fn are_awake(
    alloc: Global,
    statements: &[Statement],
    levels: &Levels,
    mover: &Ident,
    started: Option<&Ident>,
    gives: bool,
) -> bool
    ensures { result ≡ true → AreAwake statements.now levels.now mover.now.space gives (mover.now ∷ option_to_list (option_copied started.entry)) }
{
    if gives_above(levels, mover, gives) {
        return false;
    }
    all_known_able(alloc, statements, levels, mover, started)
}

/// Whether all other threads and all by-need computations are known to stay as they are, where the thread told nothing. It may have given
/// out variables.
fn leaves_others(
    alloc: Global,
    kernel: &Kernel,
    levels: &Levels,
    mover: &Ident,
    started: Option<&Ident>,
    gives: bool,
) -> bool
    ensures { result ≡ true → LeavesOthers kernel.now.statements levels.now mover.now.space gives (mover.now ∷ option_to_list (option_copied started.entry)) }
{
    if levels.is_plain() {
        return true;
    }
    let statements = kernel.statements.as_slice();
    if levels.has_spaces() {
        return are_awake(alloc, statements, levels, mover, started, gives);
    }
    all_known_awake(alloc, statements, levels, mover, started)
}

/// A thread goes on after a step that made changes, of which one may have started a thread, one may have given out variables, and none
/// added a by-need computation, or is terminated where nothing is left on its stack.
pub fn go_on_quietly(
    alloc: Global,
    kernel: &Kernel,
    mover: &Ident,
    started: Option<Ident>,
    gives: bool,
    cost: u64,
    course: &mut Course,
) -> Stepped
    requires { first course.old.queue ≡ Some mover.now }
    ensures turn { (layers : List Layer) (changes : List Change)
        → IsHead kernel.now.statements mover.now layers (drop 1 course.old.queue) course.old.shown
        → course.old.levels ≡ changed_all mover.now changes (without_top mover.now layers)
        → names_in mover.now.space (news_of (layer_of layers mover.now.space) changes) ≡ option_to_list started
        → list_any adds_trigger changes ≡ false → (gives ≡ false → given_by changes ≡ 0)
        → went_on kernel.now.statements mover.now cost course.old.levels (stepping course.old) ≡ (result, config_of kernel.now.statements course.new) }
    ensures asleep { (s : Sleeping) (layers : List Layer) (changes : List Change)
        → IsHead kernel.now.statements mover.now layers (drop 1 course.old.queue) course.old.shown
        → course.old.levels ≡ changed_all mover.now changes (without_top mover.now layers)
        → names_in mover.now.space (news_of (layer_of layers mover.now.space) changes) ≡ option_to_list started
        → AreLaid kernel.now.statements layers s (mover.now ∷ drop 1 course.old.queue)
        → AreLaidBut kernel.now.statements course.new.levels s course.new.due course.new.queue }
    ensures cost { result ≡ Moved cost }
{
    course.levels.drop_terminated(&mover.space);
    if !leaves_others(
        alloc,
        kernel,
        &course.levels,
        mover,
        started.as_ref(),
        gives,
    ) {
        course.levels.consistent();
        return follow(cost, course);
    }
    leave_alone(course, started);
    Stepped::Moved { cost }
}

/// A thread goes on with the stack that an exception left.
pub fn go_on_unwound(alloc: Global, kernel: &Kernel, mover: &Ident, course: &mut Course) -> Stepped
    requires { first course.old.queue ≡ Some mover.now }
    ensures turn { (layers : List Layer) (frames : List Frame)
        → IsHead kernel.now.statements mover.now layers (drop 1 course.old.queue) course.old.shown
        → course.old.levels ≡ taken_on mover.now frames (without_top mover.now layers)
        → went_on kernel.now.statements mover.now 1 course.old.levels (stepping course.old) ≡ (result, config_of kernel.now.statements course.new) }
    ensures cost { result ≡ Moved 1 }
{
    course.levels.drop_terminated(&mover.space);
    if !leaves_others(alloc, kernel, &course.levels, mover, None, false) {
        course.levels.consistent();
        return follow(1, course);
    }
    leave_alone(course, None);
    Stepped::Moved { cost: 1 }
}
