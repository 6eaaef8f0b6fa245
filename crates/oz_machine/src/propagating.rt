//! The run of a propagator that is due (CTM 12.4): its space is told what is left of the domains of its variables, or fails.
ghost use Rattle.std.specs.Prelude.{ℕ, ◌≡◌, ◌<◌, if◌then◌else◌, [], List, None, Some, length, position, IfOk, OnErr};
ghost use Rattle.oz_language.specs.declared.kernel.Statement.{Statement};
ghost use Rattle.oz_semantics.specs.Store.{View};
ghost use Rattle.oz_semantics.specs.Configurations.{view, in_layer, layer_at};
ghost use Rattle.oz_semantics.specs.Propagation.{Narrows, is_due, noted, noting, run_of};
ghost use Rattle.oz_semantics.specs.Schedule.{least_due, turn, after_run_of, run_failed};
ghost use Rattle.oz_semantics.specs.Settling.{failing, may_fail, settled, term_variable, top_failed, with_raised};
ghost use Rattle.oz_semantics.specs.declared.configuration.Layer.{Layer};
ghost use Rattle.oz_semantics.specs.declared.configuration.Propagator as relations;
ghost use Rattle.oz_semantics.specs.declared.outcome.RaiseKind.TheVariants.{FailureTop};
ghost use Rattle.oz_semantics.specs.declared.outcome.Stepped.TheVariants.{Moved};
ghost use Rattle.propagation.specs.Runs.{run_as};
ghost use Rattle.settle_laws.specs.Settles.{Settles};
ghost use Rattle.space_core.specs.Levels.{OfLayer};
ghost use Rattle.stability.specs.Due.{IsLeastDue};
ghost use Rattle.oz_machine.specs.declared.course.Due.TheVariants.{Nobody};
ghost use Rattle.oz_machine.specs.Courses.{config_of};
ghost use Rattle.oz_machine.specs.Propagating.{as_it_is, fallible};
ghost use Rattle.oz_machine.specs.Turns.{cost_of};

use crate::course::{Course, Due};
use crate::raising::raised_term;
use oz_base::{Copies, Ident, Interval, Sequence, Shared, SpaceName};
use oz_language::Kernel;
use oz_semantics::{RaiseKind, Status, Stepped, Tell};
use propagation::{Run, run_of, seen};
use space_core::Levels;
use stability::DuePropagator;
use std::alloc::{AllocError, Global};

/// What a run of the propagator comes to.
fn run_at(alloc: Global, levels: &Levels, due: DuePropagator) -> Result<Run, AllocError>
    requires { IsLeastDue levels.now due }
    ensures { (l : Layer) (p : relations.Propagator) → least_due levels.now ≡ Some (l, p) → IfOk result (λ run. run_as run ≡ run_of (view levels.now l.space) p) }
{
    let DuePropagator { place, index } = due;
    let store = levels.store_at(place);
    let propagators = levels.propagators_at(place);
    run_of(alloc, store, &propagators[index])
}

/// The domains that the run saw.
fn seen_at(
    alloc: Global,
    levels: &Levels,
    due: DuePropagator,
) -> Result<Shared<Sequence<Sequence<Interval>>>, AllocError>
    requires { IsLeastDue levels.now due }
    ensures { (l : Layer) (p : relations.Propagator) → least_due levels.now ≡ Some (l, p) → IfOk result (λ domains. domains ≡ noted (view levels.now l.space) p.variables) }
{
    let DuePropagator { place, index } = due;
    let store = levels.store_at(place);
    let propagators = levels.propagators_at(place);
    seen(alloc, store, propagators[index].variables.as_slice())
}

/// The last run of a propagator of a space saw these domains. It takes no memory.
fn note(
    levels: &mut Levels,
    space: &SpaceName,
    index: usize,
    seen: Shared<Sequence<Sequence<Interval>>>,
)
    ensures { (view : View) (l : Layer) → layer_at levels.old space.now ≡ Some l → position (is_due view) l.propagators ≡ Some index → levels.new ≡ in_layer space.now (noting view seen) levels.old }
{
    match levels.place(space) {
        None => {}
        Some(place) => levels.note_run(place, index, seen),
    }
}

/// What follows the run of a propagator: everybody is due.
fn follow_run(course: &mut Course) -> Stepped
    ensures turn { (statements : List Statement) (space : List ℕ) (before : List Layer) → Settles space before course.old.levels
        → settled statements None 1 (record (as_it_is course.old) { layers = before }) ≡ (result, config_of statements course.new) }
    ensures cost { result ≡ Moved 1 }
{
    course.due = Due::Everybody { mover: None };
    Stepped::Moved { cost: 1 }
}

/// The space of the propagator is told what is left of the domains of its variables.
fn narrow(
    alloc: Global,
    due: DuePropagator,
    tells: &[Tell],
    course: &mut Course,
) -> Result<Stepped, AllocError>
    requires { IsLeastDue course.old.levels due }
    ensures turn { (statements : List Statement) (l : Layer) (p : relations.Propagator) → least_due course.old.levels ≡ Some (l, p) → IfOk result (λ stepped.
        after_run_of statements l p (as_it_is course.old) (Narrows tells.now) ≡ (stepped, config_of statements course.new)) }
    ensures cost { IfOk result (λ stepped. cost_of stepped ≡ 1) }
    ensures err { OnErr result (course.new ≡ course.old) }
{
    let seen = seen_at(alloc, &course.levels, due)?;
    let space = course.levels.space_at(due.place).copied(alloc)?;
    // A run that told what clashes would have failed.
    if !course.levels.tell(alloc, &space, tells)? {
        return Err(AllocError);
    }
    note(&mut course.levels, &space, due.index, seen);
    Ok(follow_run(course))
}

/// One where a space of this status may fail, and else nothing.
fn count_of(status: &Status) -> usize
    ensures { result ≡ (if may_fail status.now then 1 else 0) }
{
    match status {
        Status::Open | Status::Raised(_) => 1,
        Status::Failed | Status::Merged => 0,
    }
}

/// How many spaces may fail.
fn fallible(levels: &Levels) -> usize
    ensures { result ≡ fallible levels.now }
{
    let mut count = 0;
    for place in 0..levels.len() {
        count += count_of(levels.status_at(place));
    }
    count
}

/// The spaces, the top of which was told the exception with which its run ends, and the variable that stands for that.
#[derive(Drop)]
struct FailedTop {
    levels: Levels,
    exception: Ident,
}

/// The top is told the exception with which its run ends. It refuses where a space fails by that, which none does.
fn failed_top(alloc: Global, levels: &Levels) -> Result<FailedTop, AllocError>
    ensures levels { IfOk result (λ failed. failed.levels ≡ with_raised FailureTop [] levels.now) }
    ensures exception { IfOk result (λ failed. failed.exception ≡ term_variable levels.now []) }
{
    let top = SpaceName::top();
    let raised = raised_term(alloc, levels, &top, RaiseKind::FailureTop)?;
    let mut levels = levels.copied(alloc)?;
    levels.is_tree();
    let before = fallible(&levels);
    if levels.place(&top).is_none() {
        return Err(AllocError);
    }
    if !levels.tell(alloc, &top, &raised.term.tells)? {
        return Err(AllocError);
    }
    if fallible(&levels) != before {
        return Err(AllocError);
    }
    levels.give_out(&top, raised.count)?;
    Ok(FailedTop {
        levels,
        exception: raised.term.variable,
    })
}

/// A propagator of the top failed: that ends the run.
fn fail_top(alloc: Global, course: &mut Course) -> Result<Stepped, AllocError>
    requires { course.old.due ≡ Nobody }
    ensures turn { (statements : List Statement) → IfOk result (λ stepped. top_failed 1 (as_it_is course.old) ≡ (stepped, config_of statements course.new)) }
    ensures cost { IfOk result (λ stepped. cost_of stepped ≡ 1) }
    ensures err { OnErr result (course.new ≡ course.old) }
{
    let failed = failed_top(alloc, &course.levels)?;
    course.levels = failed.levels;
    Ok(Stepped::TopEnded {
        exception: failed.exception,
        cost: 1,
    })
}

/// A propagator of a space below the top failed, and so the space.
fn fail_child(space: &SpaceName, course: &mut Course) -> Stepped
    ensures turn { (statements : List Statement) → settled statements None 1 (record (as_it_is course.old) { layers = failing course.old.levels space.now }) ≡ (result, config_of statements course.new) }
    ensures cost { cost_of result ≡ 1 }
{
    course.levels.fail(space);
    course.levels.consistent();
    follow_run(course)
}

/// The propagator failed, and so the space at the place.
fn fail_at(alloc: Global, place: usize, course: &mut Course) -> Result<Stepped, AllocError>
    requires due { course.old.due ≡ Nobody }
    requires within { place < length course.old.levels }
    ensures turn { (statements : List Statement) → OfLayer course.old.levels place (λ l. IfOk result (λ stepped. run_failed statements l.space (as_it_is course.old) ≡ (stepped, config_of statements course.new))) }
    ensures cost { IfOk result (λ stepped. cost_of stepped ≡ 1) }
    ensures err { OnErr result (course.new ≡ course.old) }
{
    let space = course.levels.space_at(place).copied(alloc)?;
    if space.is_top() {
        return fail_top(alloc, course);
    }
    Ok(fail_child(&space, course))
}

/// The least propagator that is due runs. It refuses for want of memory, and then nothing changes.
pub fn propagate(
    alloc: Global,
    kernel: &Kernel,
    due: DuePropagator,
    course: &mut Course,
) -> Result<Stepped, AllocError>
    requires due { course.old.due ≡ Nobody }
    requires least { IsLeastDue course.old.levels due }
    ensures turn { IfOk result (λ stepped. turn kernel.now (config_of kernel.now.statements course.old) ≡ (stepped, config_of kernel.now.statements course.new)) }
    ensures cost { IfOk result (λ stepped. cost_of stepped ≡ 1) }
    ensures err { OnErr result (course.new ≡ course.old) }
{
    let run = run_at(alloc, &course.levels, due)?;
    match run {
        Run::Fails => fail_at(alloc, due.place, course),
        Run::Narrows(tells) => narrow(alloc, due, &tells, course),
    }
}
