//! What follows a step that told its space something, where no space is below: threads of its own space alone can step by that.
ghost use Rattle.std.specs.Prelude.{◌≡◌, ◌++◌, [], List, Some, true, drop, IfSome};
ghost use Rattle.std.specs.List.{list_all};
ghost use Rattle.oz_base.specs.Lists.{first};
ghost use Rattle.oz_language.specs.declared.kernel.Statement.{Statement};
ghost use Rattle.oz_semantics.specs.Store.{is_consistent};
ghost use Rattle.oz_semantics.specs.Configurations.{is_numbered, layer_of, view};
ghost use Rattle.oz_semantics.specs.Changes.{Change, done};
ghost use Rattle.oz_semantics.specs.Steps.{went_on, without_top};
ghost use Rattle.oz_semantics.specs.declared.value.Tell.{Tell};
ghost use Rattle.oz_semantics.specs.declared.configuration.Layer.{Layer};
ghost use Rattle.oz_semantics.specs.declared.outcome.Stepped.TheVariants.{Moved};
ghost use Rattle.turn_laws.specs.Telling.{IsAlone};
ghost use Rattle.oz_machine.specs.Courses.{config_of, stepping};
ghost use Rattle.oz_machine.specs.Quiet.{IsAwakeAlone, IsHead, LetsNoneStep};
ghost use Rattle.oz_machine.specs.Asleep.{AreLaidBut, IsForetold};
ghost use Rattle.oz_machine.specs.Waking.{IsLeftTold};
ghost use Rattle.oz_sleep.specs.declared.sleeping.Sleeping.{Sleeping};

use crate::course::Course;
use crate::following::{follow, leave_alone, leave_told};
use crate::quiet::is_known_able;
use oz_base::{Ident, Sequence};
use oz_language::Kernel;
use oz_semantics::{Stepped, Thread};
use space_core::Levels;
use std::alloc::Global;

fn are_numbered(threads: &[Thread], number: u64) -> bool
    ensures { result ≡ list_all (is_numbered number) threads.now }
{
    threads.iter().all(|thread| thread.number == number)
}

/// Whether no thread but this one is in its space.
fn is_single(levels: &Levels, id: &Ident) -> bool
    ensures { result ≡ true → list_all (is_numbered id.now.number) (layer_of levels.now id.now.space).threads ≡ true }
{
    match levels.place(&id.space) {
        None => true,
        Some(place) => are_numbered(levels.threads_at(place), id.number),
    }
}

/// Whether no by-need computation of the thread's space is there that has not begun.
fn has_begun(levels: &Levels, id: &Ident) -> bool
    ensures { result ≡ true → (layer_of levels.now id.now.space).triggers ≡ [] }
{
    match levels.place(&id.space) {
        None => true,
        Some(place) => levels.triggers_at(place).is_empty(),
    }
}

/// Whether no by-need computation of the thread's space has to begin, and the thread can step, as far as that is known.
fn is_awake_alone(alloc: Global, kernel: &Kernel, levels: &Levels, id: &Ident) -> bool
    ensures { result ≡ true → IsAwakeAlone kernel.now.statements levels.now id.now }
{
    if !has_begun(levels, id) {
        return false;
    }
    is_known_able(alloc, kernel.statements.as_slice(), levels, id)
}

/// Whether no other thread can step by what the thread told its space, and no by-need computation begins, as far as that is known.
fn lets_none_step(alloc: Global, kernel: &Kernel, levels: &Levels, id: &Ident) -> bool
    ensures { result ≡ true → LetsNoneStep kernel.now.statements levels.now id.now }
{
    if !is_single(levels, id) {
        return false;
    }
    if levels.is_plain() {
        return true;
    }
    is_awake_alone(alloc, kernel, levels, id)
}

/// Threads of its space with these numbers alone may wake by what a thread told its space, if that is known.
fn go_on_waking(woken: Option<Sequence<u64>>, cost: u64, course: &mut Course) -> Stepped
    ensures follows { (statements : List Statement) (mover : Ident) → first course.old.queue ≡ Some mover → IsLeftTold statements mover cost woken course.old result course.new }
    ensures cost { result ≡ Moved cost }
{
    match woken {
        Some(woken) if course.levels.is_plain() => {
            leave_told(course, woken);
            Stepped::Moved { cost }
        }
        _ => {
            course.levels.consistent();
            follow(cost, course)
        }
    }
}

/// A thread goes on after a step that told its space, below which there is none, what is consistent with what it sees.
pub fn go_on_told(
    alloc: Global,
    kernel: &Kernel,
    mover: &Ident,
    woken: Option<Sequence<u64>>,
    cost: u64,
    course: &mut Course,
) -> Stepped
    requires { first course.old.queue ≡ Some mover.now }
    ensures turn { (s : Sleeping) (layers : List Layer) (ts : List Tell) (changes : List Change)
        → IsHead kernel.now.statements mover.now layers (drop 1 course.old.queue) course.old.shown
        → IsAlone layers mover.now.space → is_consistent (view layers mover.now.space ++ ts) ≡ true
        → course.old.levels ≡ done mover.now ts changes (without_top mover.now layers)
        → IsForetold kernel.now.statements layers s mover.now (drop 1 course.old.queue) woken ts changes
        → went_on kernel.now.statements mover.now cost course.old.levels (stepping course.old) ≡ (result, config_of kernel.now.statements course.new) }
    ensures asleep { (s : Sleeping) (layers : List Layer) (ts : List Tell) (changes : List Change)
        → IsHead kernel.now.statements mover.now layers (drop 1 course.old.queue) course.old.shown
        → IsAlone layers mover.now.space → is_consistent (view layers mover.now.space ++ ts) ≡ true
        → course.old.levels ≡ done mover.now ts changes (without_top mover.now layers)
        → IsForetold kernel.now.statements layers s mover.now (drop 1 course.old.queue) woken ts changes
        → IfSome woken (λ numbers. AreLaidBut kernel.now.statements course.new.levels s course.new.due course.new.queue) }
    ensures cost { result ≡ Moved cost }
{
    course.levels.drop_terminated(&mover.space);
    if lets_none_step(alloc, kernel, &course.levels, mover) {
        leave_alone(course, None);
        return Stepped::Moved { cost };
    }
    go_on_waking(woken, cost, course)
}
