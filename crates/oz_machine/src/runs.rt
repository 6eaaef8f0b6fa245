//! Runs: turns while something of a space or below it can step or is due.
ghost use Rattle.std.specs.Prelude.{◌≡◌, ◌≤◌, ◌||◌, IfOk, OnErr};
ghost use Rattle.std.specs.List.{list_any};
ghost use Rattle.oz_semantics.specs.Names.{is_below};
ghost use Rattle.view_laws.specs.Queues.{is_due_below};
ghost use Rattle.oz_semantics.specs.Spaces.{goes_on};
ghost use Rattle.oz_semantics.specs.Runs.{run, Ended};
ghost use Rattle.oz_machine.specs.Courses.{config_of, Keeps};
ghost use Rattle.oz_machine.specs.Answers.{IsRun, IsLeftOff};
ghost use Rattle.oz_machine.specs.declared.course.Due.TheVariants.{Nobody};
ghost use Rattle.oz_machine.specs.Asleep.{Sleeps};

use crate::course::Course;
use crate::head::Head;
use crate::settling::settle;
use crate::turn::turn;
use oz_base::{Ident, SpaceName};
use oz_language::{Kernel, Statement};
use oz_semantics::{State, Stepped};
use oz_sleep::Sleeping;
use oz_threads::Queue;
use stability::{is_due_below, space_state};
use std::alloc::{AllocError, Global};

/// How a run ends. The steps are those that it took.
#[derive(Drop)]
pub enum Ran {
    /// Nothing of the space or below it can step; its state, if it is there.
    Ended { state: Option<State>, steps: u64 },
    /// The top ended with the exception that is this variable's term.
    TopEnded { exception: Ident, steps: u64 },
    /// The next step would pass the fuel. It is not made.
    OutOfFuel,
}

/// What a run answers that ends with so much left of its fuel.
fn ended(
    alloc: Global,
    kernel: &Kernel,
    course: &Course,
    space: &SpaceName,
    fuel: u64,
    left: u64,
) -> Result<Ran, AllocError>
    requires within { left ≤ fuel }
    requires due { course.now.due ≡ Nobody }
    ensures { IfOk result (IsRun (record { kernel = kernel.now; config = config_of kernel.now.statements course.now }) space.now fuel (Ended (config_of kernel.now.statements course.now) left)) }
{
    let statements = kernel.statements.as_slice();
    let state = space_state(alloc, statements, &course.levels, space)?;
    let steps = fuel - left;
    Ok(Ran::Ended { state, steps })
}

/// Whether a thread of the space or below it is in the queue. Below the top they all are.
fn is_queued_below(queue: &Queue, space: &SpaceName) -> bool
    ensures { result ≡ list_any (λ id. is_below space.now id.space) queue.now }
{
    if space.is_top() {
        return queue.len() != 0;
    }
    queue.any_below(space)
}

/// Whether a thread of the space or below it is in the queue, or a propagator there is due.
fn is_moving(course: &Course, space: &SpaceName) -> bool
    ensures { result ≡ (list_any (λ id. is_below space.now id.space) course.now.queue || is_due_below course.now.levels space.now) }
{
    if is_queued_below(&course.queue, space) {
        return true;
    }
    is_due_below(&course.levels, space)
}

/// Whether something of the space or below it can step or is due.
fn goes_on(
    alloc: Global,
    statements: &[Statement],
    course: &Course,
    kept: bool,
    space: &SpaceName,
) -> Result<bool, AllocError>
    ensures { course.now.due ≡ Nobody → Keeps statements.now kept course.now → IfOk result (λ goes. goes ≡ goes_on statements.now (config_of statements.now course.now).layers space.now) }
{
    if kept {
        return Ok(is_moving(course, space));
    }
    stability::goes_on(alloc, statements, &course.levels, space)
}

/// Turns while something of the space or below it can step, for no more than the fuel. Where it is refused, it stands after the last
/// turn that was made, and goes on from there as it would have. What is in `answered` is of no use before, nor afterwards.
fn run_turns(
    alloc: Global,
    kernel: &Kernel,
    answered: &mut Head,
    course: &mut Course,
    kept: &mut bool,
    sleeping: &mut Sleeping,
    space: &SpaceName,
    fuel: u64,
) -> Result<Ran, AllocError>
    requires kept { Keeps kernel.now.statements kept.old course.old }
    requires asleep { Sleeps kernel.now.statements sleeping.old course.old }
    ensures run { IfOk result (IsRun (record { kernel = kernel.now; config = config_of kernel.now.statements course.new }) space.now fuel (run kernel.now space.now (config_of kernel.now.statements course.old) fuel)) }
    ensures kept { Keeps kernel.now.statements kept.new course.new }
    ensures err { OnErr result (IsLeftOff kernel.now space.now fuel (config_of kernel.now.statements course.old) (config_of kernel.now.statements course.new)) }
    ensures asleep { Sleeps kernel.now.statements sleeping.new course.new }
{
    let statements = kernel.statements.as_slice();
    let mut left = fuel;
    settle(alloc, statements, course, answered, sleeping)?;
    'turns: while goes_on(alloc, statements, course, *kept, space)? {
        let Some(stepped) = turn(alloc, kernel, answered, course, kept, sleeping, left)? else {
            return Ok(Ran::OutOfFuel);
        };
        match stepped {
            Stepped::Moved { cost } => {
                left -= cost;
                settle(alloc, statements, course, answered, sleeping)?;
            }
            Stepped::Quiescent => {
                settle(alloc, statements, course, answered, sleeping)?;
                return ended(alloc, kernel, course, space, fuel, left);
            }
            Stepped::TopEnded { exception, cost } => {
                let steps = fuel - (left - cost);
                return Ok(Ran::TopEnded { exception, steps });
            }
        }
    }
    ended(alloc, kernel, course, space, fuel, left)
}

/// Turns while something of the space or below it can step, for no more than the fuel. Where it is refused, it stands after the last
/// turn that was made, and goes on from there as it would have.
pub fn run(
    alloc: Global,
    kernel: &Kernel,
    course: &mut Course,
    kept: &mut bool,
    sleeping: &mut Sleeping,
    space: &SpaceName,
    fuel: u64,
) -> Result<Ran, AllocError>
    requires kept { Keeps kernel.now.statements kept.old course.old }
    requires asleep { Sleeps kernel.now.statements sleeping.old course.old }
    ensures run { IfOk result (IsRun (record { kernel = kernel.now; config = config_of kernel.now.statements course.new }) space.now fuel (run kernel.now space.now (config_of kernel.now.statements course.old) fuel)) }
    ensures kept { Keeps kernel.now.statements kept.new course.new }
    ensures err { OnErr result (IsLeftOff kernel.now space.now fuel (config_of kernel.now.statements course.old) (config_of kernel.now.statements course.new)) }
    ensures asleep { Sleeps kernel.now.statements sleeping.new course.new }
{
    let mut answered = Head::Unknown;
    run_turns(
        alloc,
        kernel,
        &mut answered,
        course,
        kept,
        sleeping,
        space,
        fuel,
    )
}
