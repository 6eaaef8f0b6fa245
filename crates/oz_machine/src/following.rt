//! What follows each step: the thread leaves the head of the queue, and some are due.
ghost use Rattle.std.specs.Prelude.{◌≡◌, List, Some, drop};
ghost use Rattle.oz_base.specs.Lists.{first};
ghost use Rattle.oz_base.specs.declared.names.Ident.{Ident};
ghost use Rattle.oz_language.specs.declared.kernel.Statement.{Statement};
ghost use Rattle.oz_semantics.specs.Settling.{settled};
ghost use Rattle.oz_semantics.specs.Steps.{went_on};
ghost use Rattle.oz_semantics.specs.declared.configuration.Layer.{Layer};
ghost use Rattle.oz_semantics.specs.declared.outcome.Stepped.TheVariants.{Moved};
ghost use Rattle.oz_machine.specs.declared.course.Due.TheVariants.{Nobody, Mover, Told, Everybody};
ghost use Rattle.oz_machine.specs.Courses.{config_of, stepping};
ghost use Rattle.settle_laws.specs.Settles.{Settles};
ghost use Rattle.oz_machine.specs.Asleep.{AreLaidBut};
ghost use Rattle.oz_sleep.specs.declared.sleeping.Sleeping.{Sleeping};

use crate::course::{Course, Due};
use oz_base::{Ident, Sequence};
use oz_semantics::Stepped;

/// The thread that stepped leaves the head of the queue. It is due, and so is the one that it started, if it did.
pub fn leave_alone(course: &mut Course, started: Option<Ident>)
    ensures levels { course.new.levels ≡ course.old.levels }
    ensures queue { course.new.queue ≡ drop 1 course.old.queue }
    ensures due { (mover : Ident) → first course.old.queue ≡ Some mover → course.new.due ≡ Mover mover started }
    ensures shown { course.new.shown ≡ course.old.shown }
{
    if let Some(mover) = course.queue.next() {
        course.due = Due::Mover { mover, started };
    }
}

/// The thread that told its space something leaves the head of the queue. It is due, and so are those of its space that are in the queue
/// or have these numbers.
pub fn leave_told(course: &mut Course, woken: Sequence<u64>)
    ensures levels { course.new.levels ≡ course.old.levels }
    ensures queue { course.new.queue ≡ drop 1 course.old.queue }
    ensures due { (mover : Ident) → first course.old.queue ≡ Some mover → course.new.due ≡ Told mover woken }
    ensures shown { course.new.shown ≡ course.old.shown }
{
    if let Some(mover) = course.queue.next() {
        course.due = Due::Told { mover, woken };
    }
}

/// The thread that stepped leaves the head of the queue, and everybody is due.
fn leave_to_all(course: &mut Course)
    ensures asleep { (statements : List Statement) (s : Sleeping) → AreLaidBut statements course.new.levels s course.new.due course.new.queue }
    ensures levels { course.new.levels ≡ course.old.levels }
    ensures queue { course.new.queue ≡ drop 1 course.old.queue }
    ensures due { (mover : Ident) → first course.old.queue ≡ Some mover → course.new.due ≡ Everybody (Some mover) }
    ensures shown { course.new.shown ≡ course.old.shown }
{
    let mover = course.queue.next();
    course.due = Due::Everybody { mover };
}

/// The thread whose step ended the top leaves the head of the queue, and nobody is due.
pub fn leave_to_none(course: &mut Course)
    ensures levels { course.new.levels ≡ course.old.levels }
    ensures queue { course.new.queue ≡ drop 1 course.old.queue }
    ensures due { course.new.due ≡ Nobody }
    ensures shown { course.new.shown ≡ course.old.shown }
{
    let _mover = course.queue.next();
    course.due = Due::Nobody;
}

/// What follows a step that cost so much of the thread at the head of the queue.
pub fn follow(cost: u64, course: &mut Course) -> Stepped
    ensures turn { (statements : List Statement) (mover : Ident) (before : List Layer) → first course.old.queue ≡ Some mover → Settles mover.space before course.old.levels
        → settled statements (Some mover) cost (record (stepping course.old) { layers = before }) ≡ (result, config_of statements course.new) }
    ensures cost { result ≡ Moved cost }
    ensures asleep { (statements : List Statement) (s : Sleeping) → AreLaidBut statements course.new.levels s course.new.due course.new.queue }
{
    leave_to_all(course);
    Stepped::Moved { cost }
}

/// A thread goes on after a step that cost so much, or is terminated where nothing is left on its stack.
pub fn go_on(mover: &Ident, cost: u64, course: &mut Course) -> Stepped
    requires { first course.old.queue ≡ Some mover.now }
    ensures turn { (statements : List Statement) (before : List Layer) → Settles mover.now.space before course.old.levels
        → went_on statements mover.now cost before (stepping course.old) ≡ (result, config_of statements course.new) }
    ensures cost { result ≡ Moved cost }
{
    course.levels.drop_terminated(&mover.space);
    follow(cost, course)
}
