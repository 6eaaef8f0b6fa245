//! Exceptions (CTM 2.7).
ghost use Rattle.std.specs.Prelude.{◌≡◌, ◌∷◌, [], List, Some, true, false, drop, if◌then◌else◌, is_some, IfOk, OnOk, OnErr};
ghost use Rattle.oz_base.specs.Lists.{first};
ghost use Rattle.oz_language.specs.declared.kernel.Statement.{Statement};
ghost use Rattle.oz_semantics.specs.Names.{is_top};
ghost use Rattle.oz_semantics.specs.Configurations.{layer_at, view, ending, failed, raised_by};
ghost use Rattle.oz_semantics.specs.Changes.{GivesOut, done};
ghost use Rattle.oz_semantics.specs.Exceptions.{is_failure};
ghost use Rattle.oz_semantics.specs.Steps.{went_on, uncaught, raised, raised_kind, without_top};
ghost use Rattle.oz_semantics.specs.declared.configuration.Frame.{Frame};
ghost use Rattle.oz_semantics.specs.declared.configuration.Layer.{Layer};
ghost use Rattle.oz_semantics.specs.declared.outcome.RaiseKind.{RaiseKind};
ghost use Rattle.settle_laws.specs.Settles.{Settles};
ghost use Rattle.space_core.specs.Advances.{taken_on};
ghost use Rattle.oz_semantics.specs.declared.outcome.RaiseKind.TheVariants.{FailureTell};
ghost use Rattle.oz_machine.specs.Courses.{config_of, stepping};
ghost use Rattle.oz_machine.specs.Quiet.{IsHead, KeepsHead};
ghost use Rattle.oz_machine.specs.Raising.{IsTermOf};
ghost use Rattle.oz_machine.specs.Turns.{cost_of};

use crate::course::Course;
use crate::following::{follow, go_on, leave_to_none};
use crate::quiet::go_on_unwound;
use oz_acts::{next_of, take_off};
use oz_base::{Ident, SpaceName};
use oz_language::Kernel;
use oz_raise::{NewTerm, is_failure, new_term, term};
use oz_semantics::{RaiseKind, Stepped};
use space_core::{Given, Levels};
use std::alloc::{AllocError, Global};

/// Whether an exception is a failure, as a space sees it that is there.
fn fails(levels: &Levels, space: &SpaceName, exception: &Ident) -> bool
    ensures { is_some (layer_at levels.now space.now) ≡ true → result ≡ is_failure (view levels.now space.now) exception.now }
{
    match levels.place(space) {
        None => false,
        Some(place) => is_failure(levels.store_at(place), exception),
    }
}

/// A space fails, or is ended by the exception. It takes no memory.
fn end_levels(levels: &mut Levels, space: &SpaceName, exception: Ident, fails: bool)
    ensures { levels.new ≡ ending space.now (λ l. if fails then failed l else raised_by exception l) levels.old }
{
    if fails {
        levels.fail(space);
    } else {
        levels.end(space, exception);
    }
}

/// Ends the child space of a thread that raised an exception which no mark takes.
fn end_child(id: &Ident, exception: Ident, course: &mut Course) -> Stepped
    requires head { first course.old.queue ≡ Some id.now }
    requires there { is_some (layer_at course.old.levels id.now.space) ≡ true }
    requires child { is_top id.now.space ≡ false }
    ensures turn { (statements : List Statement) (before : List Layer) → Settles id.now.space before course.old.levels
        → uncaught statements id.now exception before (stepping course.old) ≡ (result, config_of statements course.new) }
    ensures cost { cost_of result ≡ 1 }
{
    let fails = fails(&course.levels, &id.space, &exception);
    end_levels(&mut course.levels, &id.space, exception, fails);
    course.levels.consistent();
    follow(1, course)
}

/// The run of the top ends with an exception of the thread that no mark takes.
fn end_top(id: &Ident, exception: Ident, course: &mut Course) -> Stepped
    requires { is_top id.now.space ≡ true }
    ensures turn { (statements : List Statement) (before : List Layer) → Settles id.now.space before course.old.levels
        → uncaught statements id.now exception before (stepping course.old) ≡ (result, config_of statements course.new) }
    ensures cost { cost_of result ≡ 1 }
{
    course.levels.clear(id);
    course.levels.drop_terminated(&id.space);
    leave_to_none(course);
    Stepped::TopEnded { exception, cost: 1 }
}

/// An exception that no mark takes ends the run, or the child space. It takes no memory.
fn end_space(id: &Ident, exception: Ident, course: &mut Course) -> Stepped
    requires head { first course.old.queue ≡ Some id.now }
    requires there { is_some (layer_at course.old.levels id.now.space) ≡ true }
    ensures turn { (statements : List Statement) (before : List Layer) → Settles id.now.space before course.old.levels
        → uncaught statements id.now exception before (stepping course.old) ≡ (result, config_of statements course.new) }
    ensures cost { cost_of result ≡ 1 }
{
    if id.space.is_top() {
        return end_top(id, exception, course);
    }
    end_child(id, exception, course)
}

/// A thread goes on with the stack that an exception left.
fn go_on_caught(
    alloc: Global,
    kernel: &Kernel,
    id: &Ident,
    kept: bool,
    course: &mut Course,
) -> Stepped
    requires { first course.old.queue ≡ Some id.now }
    ensures turn { (layers : List Layer) (frames : List Frame)
        → (kept ≡ true → IsHead kernel.now.statements id.now layers (drop 1 course.old.queue) course.old.shown)
        → course.old.levels ≡ taken_on id.now frames (without_top id.now layers)
        → went_on kernel.now.statements id.now 1 course.old.levels (stepping course.old) ≡ (result, config_of kernel.now.statements course.new) }
    ensures cost { cost_of result ≡ 1 }
{
    if kept {
        return go_on_unwound(alloc, kernel, id, course);
    }
    course.levels.consistent();
    go_on(id, 1, course)
}

/// An exception of a term goes to the nearest mark of the thread's stack.
pub fn raise(
    alloc: Global,
    kernel: &Kernel,
    id: &Ident,
    exception: Ident,
    kept: bool,
    course: &mut Course,
) -> Result<Stepped, AllocError>
    requires head { first course.old.queue ≡ Some id.now }
    requires there { is_some (layer_at course.old.levels id.now.space) ≡ true }
    requires kept { KeepsHead kernel.now.statements id.now kept course.old }
    ensures turn { IfOk result (λ stepped. raised kernel.now.statements id.now exception (without_top id.now course.old.levels) (stepping course.old) ≡ (stepped, config_of kernel.now.statements course.new)) }
    ensures cost { IfOk result (λ stepped. cost_of stepped ≡ 1) }
    ensures err { OnErr result (course.new ≡ course.old) }
{
    if course.levels.unwind_from(alloc, id, &exception)? {
        return Ok(go_on_caught(alloc, kernel, id, kept, course));
    }
    take_off(&mut course.levels, id);
    course.levels.consistent();
    Ok(end_space(id, exception, course))
}

/// The space is told an exception's term, in place of the statement that raised it. What is told of new variables never clashes.
fn tell_term(
    alloc: Global,
    id: &Ident,
    made: &NewTerm,
    count: u64,
    levels: &mut Levels,
) -> Result<(), AllocError>
    requires { is_some (layer_at levels.old id.now.space) ≡ true }
    ensures told { OnOk result (Settles id.now.space (done id.now made.now.tells.items (GivesOut count ∷ []) (without_top id.now levels.old)) levels.new) }
    ensures err { OnErr result (levels.new ≡ levels.old) }
{
    if levels.tell_by(alloc, id, &made.tells, Given::Variables(count))? {
        Ok(())
    } else {
        Err(AllocError)
    }
}

/// A new term goes to the nearest mark of the thread's stack, or ends the space.
fn raise_new(
    alloc: Global,
    id: &Ident,
    made: NewTerm,
    count: u64,
    course: &mut Course,
) -> Result<Stepped, AllocError>
    requires head { first course.old.queue ≡ Some id.now }
    requires there { is_some (layer_at course.old.levels id.now.space) ≡ true }
    ensures turn { (statements : List Statement) (kind : RaiseKind) → IsTermOf kind course.old.levels id.now.space made count → IfOk result (λ stepped.
        raised_kind statements id.now kind (without_top id.now course.old.levels) (stepping course.old) ≡ (stepped, config_of statements course.new)) }
    ensures cost { IfOk result (λ stepped. cost_of stepped ≡ 1) }
    ensures err { OnErr result (course.new ≡ course.old) }
{
    if course
        .levels
        .raise(alloc, id, &made.tells, count, &made.variable)?
    {
        return Ok(go_on(id, 1, course));
    }
    tell_term(alloc, id, &made, count, &mut course.levels)?;
    Ok(end_space(id, made.variable, course))
}

/// The term of an exception of the machine, by new variables of a space, and how many these are.
#[derive(Drop)]
pub struct RaisedTerm {
    pub term: NewTerm,
    pub count: u64,
}

/// The term of an exception of the machine, by new variables of a space.
pub fn raised_term(
    alloc: Global,
    levels: &Levels,
    space: &SpaceName,
    kind: RaiseKind,
) -> Result<RaisedTerm, AllocError>
    ensures { IfOk result (λ raised. IsTermOf kind levels.now space.now raised.term raised.count) }
{
    let next = next_of(levels, space);
    let nodes = term(alloc, kind)?;
    let made = new_term(alloc, space, next.variable, &nodes)?;
    Ok(RaisedTerm {
        term: made,
        count: nodes.len() as u64,
    })
}

/// An exception of the machine.
pub fn raise_kind(
    alloc: Global,
    id: &Ident,
    kind: RaiseKind,
    course: &mut Course,
) -> Result<Stepped, AllocError>
    requires head { first course.old.queue ≡ Some id.now }
    requires there { is_some (layer_at course.old.levels id.now.space) ≡ true }
    ensures turn { (statements : List Statement) → IfOk result (λ stepped.
        raised_kind statements id.now kind (without_top id.now course.old.levels) (stepping course.old) ≡ (stepped, config_of statements course.new)) }
    ensures cost { IfOk result (λ stepped. cost_of stepped ≡ 1) }
    ensures err { OnErr result (course.new ≡ course.old) }
{
    let made = raised_term(alloc, &course.levels, &id.space, kind)?;
    raise_new(alloc, id, made.term, made.count, course)
}

/// What the thread's space was to be told clashes with what it sees: that is a failure.
pub fn clash(alloc: Global, id: &Ident, course: &mut Course) -> Result<Stepped, AllocError>
    requires head { first course.old.queue ≡ Some id.now }
    requires there { is_some (layer_at course.old.levels id.now.space) ≡ true }
    ensures turn { (statements : List Statement) → IfOk result (λ stepped.
        raised_kind statements id.now FailureTell (without_top id.now course.old.levels) (stepping course.old) ≡ (stepped, config_of statements course.new)) }
    ensures cost { IfOk result (λ stepped. cost_of stepped ≡ 1) }
    ensures err { OnErr result (course.new ≡ course.old) }
{
    raise_kind(alloc, id, RaiseKind::FailureTell, course)
}
