//! How blocks end.
ghost use Rattle.std.specs.Prelude.{◌≡◌, ◌∷◌, ◌++◌, ◌&&◌, [], Some, None};
ghost use Rattle.oz_language.specs.Grammar.{of_list, is_single, paren};
ghost use Rattle.oz_syntax.specs.View.{view, views};
ghost use Rattle.reader_law.specs.Machine.{guard, close, is_alive, is_some_item, opened, of_choice, patterns, catching, body_of};
ghost use Rattle.construct_steps.specs.Endings.{end_branch};
ghost use Rattle.open_constructs.specs.View.{Steps, stack_of, opener_of, frame_of};

use crate::bodies::{
    both, end_cases, end_cases_or, end_choice, end_choose, end_fun, end_local, end_proc,
    end_thread, end_try, end_when, with_arm, with_body, with_clause,
};
use open_constructs::{
    Block, Frame, Opener, StepError, Ways, begun, ends, is_alive, is_some_item, push,
};
use oz_language::Token;
use oz_syntax::Phrase;
use std::alloc::Global;

/// A body.
fn body_of(declarations: Vec<Phrase>, phrases: Vec<Phrase>) -> Phrase
    ensures { view result ≡ body_of (views declarations.items) (views phrases.items) }
{
    Phrase::Body {
        declarations,
        phrases,
    }
}

/// A frame is pushed if what is read may go on in these ways.
fn push_alive(stack: &mut Vec<Frame>, ways: Ways, frame: Frame) -> Result<(), StepError>
    ensures { Steps result stack.new.items (guard (is_alive ways.states ways.values (stack_of stack.old.items)) (Some (frame_of frame ∷ stack_of stack.old.items))) }
{
    if !is_alive(ways, stack.as_slice()) {
        return Err(StepError::Refused);
    }
    push(stack, frame)
}

/// A block begins if what is read may go on in these ways.
fn open_alive(
    alloc: Global,
    stack: &mut Vec<Frame>,
    ways: Ways,
    opener: Opener,
) -> Result<(), StepError>
    ensures { Steps result stack.new.items (guard (is_alive ways.states ways.values (stack_of stack.old.items)) (Some (opened (opener_of opener) (stack_of stack.old.items)))) }
{
    push_alive(stack, ways, Frame::Block(begun(alloc, opener)))
}

/// The body of an `if` or of a `case` ends with `end`.
fn end_branch(
    alloc: Global,
    stack: &mut Vec<Frame>,
    opener: Opener,
    body: Phrase,
    last: Ways,
) -> Result<(), StepError>
    ensures { Steps result stack.new.items (end_branch (opener_of opener) last.states last.values (view body) (stack_of stack.old.items)) }
{
    match opener {
        Opener::Then {
            at,
            ways: before,
            arms,
            condition,
        } => {
            let every = with_arm(alloc, arms, condition, body)?;
            end_when(alloc, stack, at, every, both(before, last))
        }
        Opener::Else {
            at,
            ways: before,
            arms,
        } => end_choose(alloc, stack, at, arms, body, both(before, last)),
        Opener::Clause {
            at,
            subject,
            ways: before,
            clauses,
            pattern,
        } => {
            let every = with_clause(alloc, clauses, pattern, body)?;
            end_cases(alloc, stack, at, subject, every, both(before, last))
        }
        Opener::CaseElse {
            at,
            subject,
            ways: before,
            clauses,
        } => end_cases_or(alloc, stack, at, subject, clauses, body, both(before, last)),
        _ => Err(StepError::Refused),
    }
}

/// A body ends with `end`, and with it what holds it.
fn close_end(
    alloc: Global,
    stack: &mut Vec<Frame>,
    last: Ways,
    inner: Block,
) -> Result<(), StepError>
    ensures { Steps result stack.new.items (close (Some Token.End) (opener_of inner.opener) last.states last.values (views inner.declarations.items) (views inner.phrases.items) (stack_of stack.old.items)) }
{
    let body = body_of(inner.declarations, inner.phrases);
    match inner.opener {
        Opener::Local { at, declarations } => {
            end_local(alloc, stack, at, declarations, body, last)
        }
        Opener::Proc { at, head } => end_proc(alloc, stack, at, head, body, last),
        Opener::Fun { at, lazy, head } => end_fun(alloc, stack, at, lazy, head, body, last),
        Opener::Thread { at } => end_thread(alloc, stack, at, body, last),
        Opener::Choice {
            at,
            ways: before,
            alternatives,
        } => end_choice(alloc, stack, at, alternatives, body, both(before, last)),
        Opener::Catch {
            body: tried,
            clauses,
            pattern,
        } => {
            let every = with_clause(alloc, clauses, pattern, body)?;
            end_try(alloc, stack, tried, every, last)
        }
        opener => end_branch(alloc, stack, opener, body, last),
    }
}

/// An alternative ends, and the next one begins.
fn next_alternative(
    alloc: Global,
    stack: &mut Vec<Frame>,
    at: usize,
    before: Vec<Phrase>,
    body: Phrase,
    ways: Ways,
) -> Result<(), StepError>
    ensures { Steps result stack.new.items (guard (is_alive ways.states ways.values (stack_of stack.old.items)) (Some (opened (of_choice at ways.states ways.values (views before.items ++ view body ∷ [])) (stack_of stack.old.items)))) }
{
    let alternatives = with_body(before, body)?;
    let opener = Opener::Choice {
        at,
        ways,
        alternatives,
    };
    open_alive(alloc, stack, ways, opener)
}

/// A clause of a `case` ends, and the next one begins.
fn next_clause(
    stack: &mut Vec<Frame>,
    at: usize,
    subject: Box<Phrase>,
    clauses: Vec<Phrase>,
    ways: Ways,
) -> Result<(), StepError>
    ensures { Steps result stack.new.items (guard (is_alive ways.states ways.values (stack_of stack.old.items)) (Some (patterns at (view subject.value) ways.states ways.values (views clauses.items) ∷ stack_of stack.old.items))) }
{
    let frame = Frame::Patterns {
        at,
        subject,
        ways,
        clauses,
    };
    push_alive(stack, ways, frame)
}

/// A clause of a `catch` ends, and the next one begins.
fn next_catch(
    stack: &mut Vec<Frame>,
    tried: Box<Phrase>,
    clauses: Vec<Phrase>,
    states: bool,
) -> Result<(), StepError>
    ensures { Steps result stack.new.items (guard states (Some (catching (view tried.value) (views clauses.items) ∷ stack_of stack.old.items))) }
{
    if !states {
        return Err(StepError::Refused);
    }
    let body = tried;
    push(stack, Frame::Catching { body, clauses })
}

/// An alternative or a clause ends, and the next one begins.
fn close_box(
    alloc: Global,
    stack: &mut Vec<Frame>,
    last: Ways,
    inner: Block,
) -> Result<(), StepError>
    ensures { Steps result stack.new.items (close (Some Token.Box) (opener_of inner.opener) last.states last.values (views inner.declarations.items) (views inner.phrases.items) (stack_of stack.old.items)) }
{
    let body = body_of(inner.declarations, inner.phrases);
    match inner.opener {
        Opener::Choice {
            at,
            ways: before,
            alternatives,
        } => next_alternative(alloc, stack, at, alternatives, body, both(before, last)),
        Opener::Clause {
            at,
            subject,
            ways: before,
            clauses,
            pattern,
        } => {
            let every = with_clause(alloc, clauses, pattern, body)?;
            next_clause(stack, at, subject, every, both(before, last))
        }
        Opener::Catch {
            body: tried,
            clauses,
            pattern,
        } => {
            let every = with_clause(alloc, clauses, pattern, body)?;
            next_catch(stack, tried, every, last.states)
        }
        _ => Err(StepError::Refused),
    }
}

/// The body behind a `then` ends with `elseif`.
fn close_elseif(
    alloc: Global,
    stack: &mut Vec<Frame>,
    last: Ways,
    inner: Block,
) -> Result<(), StepError>
    ensures { Steps result stack.new.items (close (Some Token.ElseIf) (opener_of inner.opener) last.states last.values (views inner.declarations.items) (views inner.phrases.items) (stack_of stack.old.items)) }
{
    let body = body_of(inner.declarations, inner.phrases);
    match inner.opener {
        Opener::Then {
            at,
            ways: before,
            arms,
            condition,
        } => {
            let ways = both(before, last);
            let arms = with_arm(alloc, arms, condition, body)?;
            push_alive(stack, ways, Frame::Testing { at, ways, arms })
        }
        _ => Err(StepError::Refused),
    }
}

/// The body behind a `then` ends, and that behind `else` begins.
fn close_else(
    alloc: Global,
    stack: &mut Vec<Frame>,
    last: Ways,
    inner: Block,
) -> Result<(), StepError>
    ensures { Steps result stack.new.items (close (Some Token.Else) (opener_of inner.opener) last.states last.values (views inner.declarations.items) (views inner.phrases.items) (stack_of stack.old.items)) }
{
    let body = body_of(inner.declarations, inner.phrases);
    match inner.opener {
        Opener::Then {
            at,
            ways: before,
            arms,
            condition,
        } => {
            let ways = both(before, last);
            let arms = with_arm(alloc, arms, condition, body)?;
            open_alive(alloc, stack, ways, Opener::Else { at, ways, arms })
        }
        Opener::Clause {
            at,
            subject,
            ways: before,
            clauses,
            pattern,
        } => {
            let ways = both(before, last);
            let done = with_clause(alloc, clauses, pattern, body)?;
            let opener = Opener::CaseElse {
                at,
                subject,
                ways,
                clauses: done,
            };
            open_alive(alloc, stack, ways, opener)
        }
        _ => Err(StepError::Refused),
    }
}

/// The body behind `try` ends with `catch`.
fn close_catch(
    alloc: Global,
    stack: &mut Vec<Frame>,
    last: Ways,
    inner: Block,
) -> Result<(), StepError>
    ensures { Steps result stack.new.items (close (Some Token.Catch) (opener_of inner.opener) last.states last.values (views inner.declarations.items) (views inner.phrases.items) (stack_of stack.old.items)) }
{
    let body = body_of(inner.declarations, inner.phrases);
    match inner.opener {
        Opener::Try => {
            let tried = Box::new(alloc, body)?;
            next_catch(stack, tried, Vec::new(alloc), last.states)
        }
        _ => Err(StepError::Refused),
    }
}

#[tactic(auto, using(crate::proofs::Counts::single_views, crate::proofs::Counts::not_single_views))]
fn is_single(phrases: &Vec<Phrase>) -> bool
    ensures { result ≡ is_single (of_list (views phrases.now.items)) }
{
    phrases.len() == 1
}

/// As what these phrases may be read in parentheses.
fn ways_in_paren(phrases: &Vec<Phrase>, ways: Ways) -> Ways
    ensures states { result.states ≡ ways.states && is_some_item (views phrases.now.items) }
    ensures values { result.values ≡ ways.values && is_single (of_list (views phrases.now.items)) }
{
    Ways {
        states: ways.states && is_some_item(phrases),
        values: ways.values && is_single(phrases),
    }
}

/// A parenthesis of statements ends.
fn close_paren_block(
    alloc: Global,
    stack: &mut Vec<Frame>,
    last: Ways,
    inner: Block,
) -> Result<(), StepError>
    ensures { Steps result stack.new.items (close (Some Token.CloseParen) (opener_of inner.opener) last.states last.values (views inner.declarations.items) (views inner.phrases.items) (stack_of stack.old.items)) }
{
    match inner.opener {
        Opener::Paren { at } => {
            let ways = ways_in_paren(&inner.phrases, last);
            let inner = inner.phrases;
            ends(alloc, stack, Phrase::Paren { at, inner }, ways)
        }
        _ => Err(StepError::Refused),
    }
}

/// The text ends.
fn close_text(stack: &mut Vec<Frame>, last: Ways, inner: Block) -> Result<(), StepError>
    ensures { Steps result stack.new.items (close None (opener_of inner.opener) last.states last.values (views inner.declarations.items) (views inner.phrases.items) (stack_of stack.old.items)) }
{
    if !last.states {
        return Err(StepError::Refused);
    }
    let body = body_of(inner.declarations, inner.phrases);
    match inner.opener {
        Opener::Program => push(stack, Frame::Accepted(body)),
        _ => Err(StepError::Refused),
    }
}

/// A block ends by a token, or by the end. Its phrases may be statements and a value, or not.
pub fn close(
    alloc: Global,
    stack: &mut Vec<Frame>,
    next: Option<Token>,
    values: bool,
    inner: Block,
) -> Result<(), StepError>
    ensures { Steps result stack.new.items (close next (opener_of inner.opener) inner.states values (views inner.declarations.items) (views inner.phrases.items) (stack_of stack.old.items)) }
{
    let last = Ways {
        states: inner.states,
        values,
    };
    match next {
        Some(Token::End) => close_end(alloc, stack, last, inner),
        Some(Token::Box) => close_box(alloc, stack, last, inner),
        Some(Token::ElseIf) => close_elseif(alloc, stack, last, inner),
        Some(Token::Else) => close_else(alloc, stack, last, inner),
        Some(Token::Catch) => close_catch(alloc, stack, last, inner),
        Some(Token::CloseParen) => close_paren_block(alloc, stack, last, inner),
        None => close_text(stack, last, inner),
        _ => Err(StepError::Refused),
    }
}
