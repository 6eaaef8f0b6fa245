//! Edits of what is kept of one space, which tell nothing.
ghost use Rattle.std.specs.Prelude.{◌≡◌, ◌++◌, [], ◌+◌, ◌≤◌, drop, take, length, unwrap_or, IfOk, OnOk, OnErr, MatchOption};
ghost use Rattle.oz_base.specs.Lists.{first};
ghost use Rattle.oz_semantics.specs.Configurations.{thread_at, frames_in, with_frames, without_terminated, spawning, giving_out};
ghost use Rattle.space_core.specs.Firing.{delaying};
ghost use Rattle.space_core.specs.Levels.{replacing};
ghost use Rattle.space_core.specs.Shown.{IsQuiet};
ghost use Rattle.space_core.specs.Giving.{numbers_after, objects_after, after_giving, declaring, declaring_in, spawning_by, assigning};
ghost use Rattle.space_core.specs.Stacks.{cut_out};
ghost use Rattle.space_core.specs.Unwinding.{IsLevelCaught};

use crate::declarations::number_after;
use crate::given::Given;
use crate::level::{Level, Numbers};
use crate::posting::post;
use crate::stacks::Landing;
use cells_ports::Objects;
use oz_base::{Copies, Ident};
use oz_language::Identifier;
use oz_semantics::{Frame, Trigger};
use std::alloc::{AllocError, Global};

/// Takes the statement off the top of a thread's stack.
pub fn pop(level: &mut Level, number: u64) -> Option<Frame>
    ensures frame { result ≡ first (frames_in (thread_at level.old.threads.list number)) }
    ensures popped { IsQuiet (with_frames number (λ stack. drop 1 stack)) level.old level.new }
{
    level.threads.pop(number)
}

/// Takes the statement off the top of a thread's stack, if there is one, and drops it.
pub fn drop_top(level: &mut Level, number: u64)
    ensures { IsQuiet (with_frames number (λ stack. drop 1 stack)) level.old level.new }
{
    let _statement = pop(level, number);
}

/// Puts statements on top of a thread's stack, the first of them uppermost.
pub fn push(level: &mut Level, number: u64, frames: Vec<Frame>) -> Result<(), AllocError>
    ensures ok { OnOk result (IsQuiet (with_frames number (λ stack. frames.items ++ stack)) level.old level.new) }
    ensures err { OnErr result (level.new ≡ level.old) }
{
    level.threads.push(number, frames)
}

/// Puts statements in the place of the one on top of a thread's stack.
pub fn replace_top(level: &mut Level, number: u64, frames: Vec<Frame>) -> Result<(), AllocError>
    ensures ok { OnOk result (IsQuiet (with_frames number (replacing frames.items)) level.old level.new) }
    ensures err { OnErr result (level.new ≡ level.old) }
{
    level.threads.replace_top(number, frames)
}

/// Takes all statements off a thread's stack.
pub fn clear(level: &mut Level, number: u64)
    ensures { IsQuiet (with_frames number (λ stack. [])) level.old level.new }
{
    level.threads.clear(number);
}

/// Threads without statements are terminated.
pub fn drop_terminated(alloc: Global, level: &mut Level)
    ensures { IsQuiet without_terminated level.old level.new }
{
    level.threads.drop_terminated(alloc);
}

/// The numbers of a space after it gave out what comes with a tell.
fn numbers_after(numbers: Numbers, given: &Given) -> Result<Numbers, AllocError>
    ensures { IfOk result (λ after. after ≡ numbers_after given.now numbers) }
{
    match given {
        Given::Nothing
        | Given::Cell(_)
        | Given::Content { .. }
        | Given::Port(_)
        | Given::Propagator { .. } => Ok(numbers),
        Given::Variables(count) => Ok(Numbers {
            variable: numbers.variable.checked_add(*count).ok_or(AllocError)?,
            procedure: numbers.procedure,
            name: numbers.name,
            child: numbers.child,
        }),
        Given::Procedure => Ok(Numbers {
            variable: numbers.variable,
            procedure: numbers.procedure.checked_add(1).ok_or(AllocError)?,
            name: numbers.name,
            child: numbers.child,
        }),
        Given::Name => Ok(Numbers {
            variable: numbers.variable,
            procedure: numbers.procedure,
            name: numbers.name.checked_add(1).ok_or(AllocError)?,
            child: numbers.child,
        }),
        Given::End { .. } => Ok(Numbers {
            variable: numbers.variable.checked_add(1).ok_or(AllocError)?,
            procedure: numbers.procedure,
            name: numbers.name,
            child: numbers.child,
        }),
    }
}

/// What becomes of the cells and ports of a space by what comes with a tell.
fn change_objects(alloc: Global, objects: &mut Objects, given: &Given) -> Result<(), AllocError>
    ensures ok { OnOk result (objects.new ≡ objects_after given.now objects.old) }
    ensures err { OnErr result (objects.new ≡ objects.old) }
{
    match given {
        Given::Nothing
        | Given::Variables(_)
        | Given::Procedure
        | Given::Name
        | Given::Propagator { .. } => Ok(()),
        Given::Cell(content) => objects.add_cell(alloc, content.copied(alloc)?),
        Given::Content { cell, content } => objects.assign(alloc, *cell, content.copied(alloc)?),
        Given::Port(stream) => objects.add_port(alloc, stream.copied(alloc)?),
        Given::End { port, end } => objects.end_at(alloc, *port, end.copied(alloc)?),
    }
}

/// The cells and ports of a space as they are, where what comes with a tell changes them.
fn objects_before(
    alloc: Global,
    objects: &Objects,
    given: &Given,
) -> Result<Option<Objects>, AllocError>
    ensures { IfOk result (λ before. MatchOption before (objects_after given.now objects.now ≡ objects.now) (λ same. same ≡ objects.now)) }
{
    match given {
        Given::Nothing
        | Given::Variables(_)
        | Given::Procedure
        | Given::Name
        | Given::Propagator { .. } => Ok(None),
        Given::Cell(_) | Given::Content { .. } | Given::Port(_) | Given::End { .. } => {
            Ok(Some(objects.copied(alloc)?))
        }
    }
}

/// The space gives out what comes with a tell, and its cells, ports and propagators change by it. What the cells and ports were, where
/// they change.
pub fn give(alloc: Global, level: &mut Level, given: &Given) -> Result<Option<Objects>, AllocError>
    ensures ok { OnOk result (level.new ≡ after_giving given.now level.old) }
    ensures before { IfOk result (λ before. MatchOption before (objects_after given.now level.old.objects ≡ level.old.objects) (λ same. same ≡ level.old.objects)) }
    ensures err { OnErr result (level.new ≡ level.old) }
{
    let numbers = numbers_after(level.numbers, given)?;
    let before = objects_before(alloc, &level.objects, given)?;
    change_objects(alloc, &mut level.objects, given)?;
    post(alloc, &mut level.constraints, given)?;
    level.numbers = numbers;
    Ok(before)
}

/// Sets back what a space gave out: its numbers, where its cells and ports were changed these too, and so many propagators are left.
pub fn set_back(
    alloc: Global,
    level: &mut Level,
    numbers: Numbers,
    objects: Option<Objects>,
    propagators: usize,
)
    ensures { level.new ≡ record level.old { numbers = numbers; objects = unwrap_or objects level.old.objects; constraints = record level.old.constraints { propagators = take propagators level.old.constraints.propagators } } }
{
    level.numbers = numbers;
    if let Some(objects) = objects {
        level.objects = objects;
    }
    level.constraints.keep_first(alloc, propagators);
}

/// A new thread with these statements, the first of them uppermost.
pub fn spawn(alloc: Global, level: &mut Level, frames: Vec<Frame>) -> Result<(), AllocError>
    ensures ok { OnOk result (IsQuiet (spawning frames.items) level.old level.new) }
    ensures err { OnErr result (level.new ≡ level.old) }
{
    level.threads.spawn(alloc, frames)
}

/// The space gives out so many variables.
pub fn give_out(level: &mut Level, count: u64) -> Result<(), AllocError>
    ensures ok { OnOk result (IsQuiet (giving_out count) level.old level.new) }
    ensures err { OnErr result (level.new ≡ level.old) }
{
    let variable = level.numbers.variable;
    level.numbers.variable = variable.checked_add(count).ok_or(AllocError)?;
    Ok(())
}

/// The statement on top of a thread's stack gives way to these, and the space gives out so many variables.
pub fn declare(
    level: &mut Level,
    number: u64,
    frames: Vec<Frame>,
    count: u64,
) -> Result<(), AllocError>
    ensures ok { OnOk result (IsQuiet (declaring number frames.items count) level.old level.new) }
    ensures err { OnErr result (level.new ≡ level.old) }
{
    let next = level.numbers.variable.checked_add(count).ok_or(AllocError)?;
    level.threads.replace_top(number, frames)?;
    level.numbers.variable = next;
    Ok(())
}

/// The statement on top of a thread's stack gives way to a body, in which the identifiers stand for new variables.
pub fn declare_in(
    alloc: Global,
    level: &mut Level,
    number: u64,
    names: &[Identifier],
    body: &[u32],
) -> Result<(), AllocError>
    ensures ok { OnOk result (IsQuiet (declaring_in number names.now body.now) level.old level.new) }
    ensures err { OnErr result (level.new ≡ level.old) }
{
    let from = level.numbers.variable;
    let next = number_after(from, names.len())?;
    let threads = &mut level.threads;
    threads.declare_in(alloc, number, names, &level.space, from, body)?;
    level.numbers.variable = next;
    Ok(())
}

/// The statement on top of a thread's stack is taken off, and a new thread begins with these.
pub fn start(
    alloc: Global,
    level: &mut Level,
    number: u64,
    frames: Vec<Frame>,
) -> Result<(), AllocError>
    ensures ok { OnOk result (IsQuiet (spawning_by number frames.items) level.old level.new) }
    ensures err { OnErr result (level.new ≡ level.old) }
{
    level.threads.start(alloc, number, frames)
}

/// The statement on top of a thread's stack is taken off, and a cell contains this from now on.
pub fn assign(
    alloc: Global,
    level: &mut Level,
    number: u64,
    cell: u64,
    content: Ident,
) -> Result<(), AllocError>
    ensures ok { OnOk result (IsQuiet (assigning number cell content) level.old level.new) }
    ensures err { OnErr result (level.new ≡ level.old) }
{
    level.objects.assign(alloc, cell, content)?;
    drop_top(level, number);
    Ok(())
}

/// The statement on top of a thread's stack is taken off, and the procedure is applied to the variable once that is needed.
pub fn delay(
    level: &mut Level,
    number: u64,
    procedure: Ident,
    variable: Ident,
) -> Result<(), AllocError>
    ensures ok { OnOk result (IsQuiet (delaying number procedure variable) level.old level.new) }
    ensures err { OnErr result (level.new ≡ level.old) }
{
    level.triggers.push(Trigger {
        procedure,
        variable,
    })?;
    let _delayed = pop(level, number);
    Ok(())
}

/// Takes so many statements off a thread's stack that stand below the uppermost ones.
pub fn cut(level: &mut Level, number: u64, uppermost: usize, count: usize)
    requires { uppermost + count ≤ length (frames_in (thread_at level.old.threads.list number)) }
    ensures { IsQuiet (with_frames number (cut_out uppermost count)) level.old level.new }
{
    level.threads.cut(number, uppermost, count);
}

/// An exception of the statement on top of a thread's stack goes to the nearest mark below it. False exactly where there is none: then
/// nothing changes.
pub fn unwind_from(
    alloc: Global,
    level: &mut Level,
    number: u64,
    exception: &Ident,
) -> Result<bool, AllocError>
    ensures unwound { IfOk result (IsLevelCaught exception.now number level.old level.new) }
    ensures err { OnErr result (level.new ≡ level.old) }
{
    let Some(landing) = level.threads.landing_of(alloc, number, exception)? else {
        return Ok(false);
    };
    let Landing { count, frames } = landing;
    let handler = frames.len();
    push(level, number, frames.into_vec())?;
    cut(level, number, handler, count);
    Ok(true)
}
