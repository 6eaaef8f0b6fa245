//! What ends with a body.
ghost use Rattle.std.specs.Prelude.{◌≡◌, ◌∷◌, ◌++◌, ◌&&◌, [], Some, IfOk, true, false};
ghost use Rattle.oz_language.specs.Grammar.{of_list, proc, fun, local, thread, choice, when, choose, arm, cases, cases_or, clause, attempt, is_named_head, is_value_head};
ghost use Rattle.oz_syntax.specs.View.{view, views};
ghost use Rattle.reader_law.specs.Machine.{guard, had, ends, may_state};
ghost use Rattle.open_constructs.specs.View.{Steps, stack_of};

use crate::heads::ways_of_head;
use open_constructs::{Frame, StepError, Ways, ends, had, may_state};
use oz_syntax::Phrase;
use std::alloc::{AllocError, Global};

/// As what bodies may be read, of which those before and the last one may be read so.
pub fn both(before: Ways, last: Ways) -> Ways
    ensures states { result.states ≡ before.states && last.states }
    ensures values { result.values ≡ before.values && last.values }
{
    Ways {
        states: before.states && last.states,
        values: before.values && last.values,
    }
}

/// The bodies with one more.
#[tactic(auto, using(open_constructs::proofs::Views::views_push))]
pub fn with_body(mut bodies: Vec<Phrase>, body: Phrase) -> Result<Vec<Phrase>, AllocError>
    ensures { IfOk result (λ all. views all.items ≡ views bodies.items ++ view body ∷ []) }
{
    bodies.push(body)?;
    Ok(bodies)
}

/// The arms with one more.
pub fn with_arm(
    alloc: Global,
    arms: Vec<Phrase>,
    condition: Box<Phrase>,
    body: Phrase,
) -> Result<Vec<Phrase>, AllocError>
    ensures { IfOk result (λ all. views all.items ≡ views arms.items ++ arm (view condition.value) (view body) ∷ []) }
{
    let body = Box::new(alloc, body)?;
    with_body(arms, Phrase::Arm { condition, body })
}

/// The clauses with one more.
pub fn with_clause(
    alloc: Global,
    clauses: Vec<Phrase>,
    pattern: Box<Phrase>,
    body: Phrase,
) -> Result<Vec<Phrase>, AllocError>
    ensures { IfOk result (λ all. views all.items ≡ views clauses.items ++ clause (view pattern.value) (view body) ∷ []) }
{
    let body = Box::new(alloc, body)?;
    with_body(clauses, Phrase::Clause { pattern, body })
}

/// A `local` ends.
pub fn end_local(
    alloc: Global,
    stack: &mut Vec<Frame>,
    at: usize,
    declarations: Vec<Phrase>,
    body: Phrase,
    ways: Ways,
) -> Result<(), StepError>
    ensures { Steps result stack.new.items (ends (local at (of_list (views declarations.items)) (view body)) ways.states ways.values (stack_of stack.old.items)) }
{
    let body = Box::new(alloc, body)?;
    let whole = Phrase::Local {
        at,
        declarations,
        body,
    };
    ends(alloc, stack, whole, ways)
}

/// A `proc` ends, of which the body may be read in these ways.
pub fn end_proc(
    alloc: Global,
    stack: &mut Vec<Frame>,
    at: usize,
    head: Box<Phrase>,
    body: Phrase,
    ways: Ways,
) -> Result<(), StepError>
    ensures { Steps result stack.new.items (guard ways.states (Some (had (proc at (view head.value) (view body)) (is_named_head (view head.value)) (is_value_head (view head.value)) (stack_of stack.old.items)))) }
{
    if !ways.states {
        return Err(StepError::Refused);
    }
    let made = ways_of_head(&head);
    let body = Box::new(alloc, body)?;
    had(alloc, stack, Phrase::Proc { at, head, body }, made)
}

/// A `fun` ends, of which the body may be read in these ways.
pub fn end_fun(
    alloc: Global,
    stack: &mut Vec<Frame>,
    at: usize,
    lazy: Option<usize>,
    head: Box<Phrase>,
    body: Phrase,
    ways: Ways,
) -> Result<(), StepError>
    ensures { Steps result stack.new.items (guard ways.values (Some (had (fun at lazy (view head.value) (view body)) (is_named_head (view head.value)) (is_value_head (view head.value)) (stack_of stack.old.items)))) }
{
    if !ways.values {
        return Err(StepError::Refused);
    }
    let made = ways_of_head(&head);
    let body = Box::new(alloc, body)?;
    let whole = Phrase::Fun {
        at,
        lazy,
        head,
        body,
    };
    had(alloc, stack, whole, made)
}

/// A `thread` ends.
pub fn end_thread(
    alloc: Global,
    stack: &mut Vec<Frame>,
    at: usize,
    body: Phrase,
    ways: Ways,
) -> Result<(), StepError>
    ensures { Steps result stack.new.items (ends (thread at (view body)) ways.states ways.values (stack_of stack.old.items)) }
{
    let body = Box::new(alloc, body)?;
    ends(alloc, stack, Phrase::Thread { at, body }, ways)
}

/// A `choice` ends.
pub fn end_choice(
    alloc: Global,
    stack: &mut Vec<Frame>,
    at: usize,
    before: Vec<Phrase>,
    body: Phrase,
    ways: Ways,
) -> Result<(), StepError>
    ensures { Steps result stack.new.items (ends (choice at (of_list (views before.items ++ view body ∷ []))) ways.states ways.values (stack_of stack.old.items)) }
{
    let alternatives = with_body(before, body)?;
    ends(alloc, stack, Phrase::Choice { at, alternatives }, ways)
}

/// An `if` without `else` ends.
pub fn end_when(
    alloc: Global,
    stack: &mut Vec<Frame>,
    at: usize,
    arms: Vec<Phrase>,
    ways: Ways,
) -> Result<(), StepError>
    ensures { Steps result stack.new.items (guard (may_state (stack_of stack.old.items) && ways.states) (Some (had (when at (of_list (views arms.items))) true false (stack_of stack.old.items)))) }
{
    if !may_state(stack.as_slice()) || !ways.states {
        return Err(StepError::Refused);
    }
    let statement = Ways {
        states: true,
        values: false,
    };
    had(alloc, stack, Phrase::If { at, arms }, statement)
}

/// An `if` with its `else` ends.
pub fn end_choose(
    alloc: Global,
    stack: &mut Vec<Frame>,
    at: usize,
    arms: Vec<Phrase>,
    otherwise: Phrase,
    ways: Ways,
) -> Result<(), StepError>
    ensures { Steps result stack.new.items (ends (choose at (of_list (views arms.items)) (view otherwise)) ways.states ways.values (stack_of stack.old.items)) }
{
    let otherwise = Box::new(alloc, otherwise)?;
    let whole = Phrase::IfElse {
        at,
        arms,
        otherwise,
    };
    ends(alloc, stack, whole, ways)
}

/// A `case` without `else` ends.
pub fn end_cases(
    alloc: Global,
    stack: &mut Vec<Frame>,
    at: usize,
    subject: Box<Phrase>,
    clauses: Vec<Phrase>,
    ways: Ways,
) -> Result<(), StepError>
    ensures { Steps result stack.new.items (ends (cases at (view subject.value) (of_list (views clauses.items))) ways.states ways.values (stack_of stack.old.items)) }
{
    let whole = Phrase::Case {
        at,
        subject,
        clauses,
    };
    ends(alloc, stack, whole, ways)
}

/// A `case` with its `else` ends.
pub fn end_cases_or(
    alloc: Global,
    stack: &mut Vec<Frame>,
    at: usize,
    subject: Box<Phrase>,
    clauses: Vec<Phrase>,
    otherwise: Phrase,
    ways: Ways,
) -> Result<(), StepError>
    ensures { Steps result stack.new.items (ends (cases_or at (view subject.value) (of_list (views clauses.items)) (view otherwise)) ways.states ways.values (stack_of stack.old.items)) }
{
    let otherwise = Box::new(alloc, otherwise)?;
    let whole = Phrase::CaseElse {
        at,
        subject,
        clauses,
        otherwise,
    };
    ends(alloc, stack, whole, ways)
}

/// A `try` ends, of which the last body may be read in these ways.
pub fn end_try(
    alloc: Global,
    stack: &mut Vec<Frame>,
    body: Box<Phrase>,
    clauses: Vec<Phrase>,
    ways: Ways,
) -> Result<(), StepError>
    ensures { Steps result stack.new.items (guard ways.states (Some (had (attempt (view body.value) (of_list (views clauses.items))) true false (stack_of stack.old.items)))) }
{
    if !ways.states {
        return Err(StepError::Refused);
    }
    let statement = Ways {
        states: true,
        values: false,
    };
    had(alloc, stack, Phrase::Try { body, clauses }, statement)
}
