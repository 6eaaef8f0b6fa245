//! Steps behind conditions, subjects and patterns.
ghost use Rattle.std.specs.Prelude.{◌≡◌};
ghost use Rattle.oz_syntax.specs.View.{view, views};
ghost use Rattle.reader_law.specs.Machine.{tested, subjected, claused, caught};
ghost use Rattle.open_constructs.specs.View.{Steps, stack_of};

use open_constructs::{BOTH_WAYS, Frame, Opener, StepError, Ways, open_block, push};
use oz_language::Token;
use oz_syntax::Phrase;
use std::alloc::Global;

/// `then` behind a condition.
pub fn tested(
    alloc: Global,
    stack: &mut Vec<Frame>,
    next: Option<Token>,
    condition: Phrase,
    at: usize,
    ways: Ways,
    arms: Vec<Phrase>,
) -> Result<(), StepError>
    ensures { Steps result stack.new.items (tested next (view condition) at ways.states ways.values (views arms.items) (stack_of stack.old.items)) }
{
    match next {
        Some(Token::Then) => {
            let condition = Box::new(alloc, condition)?;
            let opener = Opener::Then {
                at,
                ways,
                arms,
                condition,
            };
            open_block(alloc, stack, opener)
        }
        _ => Err(StepError::Refused),
    }
}

/// `of` behind a subject.
pub fn subjected(
    alloc: Global,
    stack: &mut Vec<Frame>,
    next: Option<Token>,
    subject: Phrase,
    at: usize,
) -> Result<(), StepError>
    ensures { Steps result stack.new.items (subjected next (view subject) at (stack_of stack.old.items)) }
{
    match next {
        Some(Token::Of) => {
            let frame = Frame::Patterns {
                at,
                subject: Box::new(alloc, subject)?,
                ways: BOTH_WAYS,
                clauses: Vec::new(alloc),
            };
            push(stack, frame)
        }
        _ => Err(StepError::Refused),
    }
}

/// `then` behind a pattern of a `case`.
pub fn claused(
    alloc: Global,
    stack: &mut Vec<Frame>,
    next: Option<Token>,
    pattern: Phrase,
    at: usize,
    subject: Box<Phrase>,
    ways: Ways,
    clauses: Vec<Phrase>,
) -> Result<(), StepError>
    ensures { Steps result stack.new.items (claused next (view pattern) at (view subject.value) ways.states ways.values (views clauses.items) (stack_of stack.old.items)) }
{
    match next {
        Some(Token::Then) => {
            let pattern = Box::new(alloc, pattern)?;
            let opener = Opener::Clause {
                at,
                subject,
                ways,
                clauses,
                pattern,
            };
            open_block(alloc, stack, opener)
        }
        _ => Err(StepError::Refused),
    }
}

/// `then` behind a pattern of a `catch`.
pub fn caught(
    alloc: Global,
    stack: &mut Vec<Frame>,
    next: Option<Token>,
    pattern: Phrase,
    body: Box<Phrase>,
    clauses: Vec<Phrase>,
) -> Result<(), StepError>
    ensures { Steps result stack.new.items (caught next (view pattern) (view body.value) (views clauses.items) (stack_of stack.old.items)) }
{
    match next {
        Some(Token::Then) => {
            let pattern = Box::new(alloc, pattern)?;
            let opener = Opener::Catch {
                body,
                clauses,
                pattern,
            };
            open_block(alloc, stack, opener)
        }
        _ => Err(StepError::Refused),
    }
}
