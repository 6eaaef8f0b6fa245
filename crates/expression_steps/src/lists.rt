//! Steps of lists, calls, parentheses and `raise`.
ghost use Rattle.std.specs.Prelude.{◌≡◌, ◌∷◌, ◌++◌, []};
ghost use Rattle.oz_syntax.specs.View.{view, views};
ghost use Rattle.reader_law.specs.Machine.{next_element, next_part, close_paren, raised};
ghost use Rattle.open_constructs.specs.View.{Steps, stack_of};

use crate::operands::operand_in;
use open_constructs::{BOTH_WAYS, Frame, Listing, StepError, Ways, had, is_some_item, value};
use oz_language::Token;
use oz_syntax::Phrase;
use std::alloc::Global;

/// The next element begins, or the list ends.
pub fn next_element(
    alloc: Global,
    stack: &mut Vec<Frame>,
    next: Option<Token>,
    inner: Listing,
) -> Result<(), StepError>
    ensures { Steps result stack.new.items (next_element next inner.in_pattern inner.at (views inner.elements.items) (stack_of stack.old.items)) }
{
    match next {
        Some(Token::CloseBracket) => {
            if !is_some_item(&inner.elements) {
                return Err(StepError::Refused);
            }
            let whole = Phrase::List {
                at: inner.at,
                elements: inner.elements,
            };
            value(alloc, stack, whole)
        }
        _ => operand_in(alloc, stack, Frame::Listing(inner), next),
    }
}

/// What comes behind an element.
#[tactic(auto, using(open_constructs::proofs::Views::views_push))]
pub fn behind_element(
    alloc: Global,
    stack: &mut Vec<Frame>,
    next: Option<Token>,
    e: Phrase,
    mut inner: Listing,
) -> Result<(), StepError>
    ensures { Steps result stack.new.items (next_element next inner.in_pattern inner.at (views inner.elements.items ++ view e ∷ []) (stack_of stack.old.items)) }
{
    inner.elements.push(e)?;
    next_element(alloc, stack, next, inner)
}

/// The next part of a call begins, or the call ends.
pub fn next_part(
    alloc: Global,
    stack: &mut Vec<Frame>,
    next: Option<Token>,
    at: usize,
    parts: Vec<Phrase>,
) -> Result<(), StepError>
    ensures { Steps result stack.new.items (next_part next at (views parts.items) (stack_of stack.old.items)) }
{
    match next {
        Some(Token::CloseBrace) => {
            if !is_some_item(&parts) {
                return Err(StepError::Refused);
            }
            had(alloc, stack, Phrase::Call { at, parts }, BOTH_WAYS)
        }
        _ => operand_in(alloc, stack, Frame::Parts { at, parts }, next),
    }
}

/// What comes behind a part of a call.
#[tactic(auto, using(open_constructs::proofs::Views::views_push))]
pub fn behind_part(
    alloc: Global,
    stack: &mut Vec<Frame>,
    next: Option<Token>,
    e: Phrase,
    at: usize,
    mut parts: Vec<Phrase>,
) -> Result<(), StepError>
    ensures { Steps result stack.new.items (next_part next at (views parts.items ++ view e ∷ []) (stack_of stack.old.items)) }
{
    parts.push(e)?;
    next_part(alloc, stack, next, at, parts)
}

/// What stands in parentheses ends.
#[tactic(auto, using(open_constructs::proofs::Views::views_push))]
pub fn close_paren(
    alloc: Global,
    stack: &mut Vec<Frame>,
    next: Option<Token>,
    e: Phrase,
    states: bool,
    at: usize,
) -> Result<(), StepError>
    ensures { Steps result stack.new.items (close_paren next (view e) states at (stack_of stack.old.items)) }
{
    match next {
        Some(Token::CloseParen) => {
            let mut inner = Vec::new(alloc);
            inner.push(e)?;
            let ways = Ways {
                states,
                values: true,
            };
            had(alloc, stack, Phrase::Paren { at, inner }, ways)
        }
        _ => Err(StepError::Refused),
    }
}

/// A `raise` ends.
pub fn raised(
    alloc: Global,
    stack: &mut Vec<Frame>,
    next: Option<Token>,
    e: Phrase,
    at: usize,
) -> Result<(), StepError>
    ensures { Steps result stack.new.items (raised next (view e) at (stack_of stack.old.items)) }
{
    match next {
        Some(Token::End) => {
            let value = Box::new(alloc, e)?;
            had(alloc, stack, Phrase::Raise { at, value }, BOTH_WAYS)
        }
        _ => Err(StepError::Refused),
    }
}
