//! The steps over what is open. Each takes constant time, but for the sides of a relation.
ghost use Rattle.std.specs.Prelude.{◌≡◌, ◌∷◌, Some, None, true, false, IfOk, option_map};
ghost use Rattle.oz_syntax.specs.View.{view};
ghost use Rattle.reader_law.specs.Machine.{behind, settled, after, item_over, feature_begins, access_begins, accessing, next, start, accepted_of, finish};
ghost use Rattle.oz_language.specs.Grammar.{connected, relate};
ghost use Rattle.open_constructs.specs.View.{Steps, Gives, stack_of, frame_of};
ghost use Rattle.oz_reader.specs.Stepping.{program_of, shift};

use block_steps::{behind_item, item, item_over};
use construct_steps::{caught, claused, next_head, open_head, subjected, tested};
use expression_steps::{
    access_begins, behind_element, behind_field, behind_part, behind_value, close_paren,
    feature_begins, is_operator, next_element, next_field, next_part, operand, operand_in, raised,
    reduce, shift_in,
};
use open_constructs::{Frame, Opener, StepError, Ways, begun, kind_of, pop, push};
use oz_language::{Comparison, Connective, Token};
use oz_syntax::Phrase;
use std::alloc::{AllocError, Global};

/// A statement alone.
const STATEMENT: Ways = Ways {
    states: true,
    values: false,
};

/// A statement with two sides ends.
fn connected(
    alloc: Global,
    stack: &mut Vec<Frame>,
    next: Option<Token>,
    right: Phrase,
    connective: Connective,
    left: Box<Phrase>,
) -> Result<(), StepError>
    ensures { Steps result stack.new.items (item_over next (connected connective (view left.value) (view right)) true false (stack_of stack.old.items)) }
{
    let right = Box::new(alloc, right)?;
    let whole = Phrase::Connected {
        connective,
        left,
        right,
    };
    item_over(alloc, stack, next, whole, STATEMENT)
}

/// A relation ends.
fn related(
    alloc: Global,
    stack: &mut Vec<Frame>,
    next: Option<Token>,
    right: Phrase,
    comparison: Comparison,
    left: Box<Phrase>,
) -> Result<(), StepError>
    ensures { Steps result stack.new.items (item_over next (relate comparison (view left.value) (view right)) true false (stack_of stack.old.items)) }
{
    let right = Box::new(alloc, right)?;
    let whole = Phrase::Relate {
        comparison,
        left,
        right,
    };
    item_over(alloc, stack, next, whole, STATEMENT)
}

/// What comes behind a phrase that is whole.
fn behind(
    alloc: Global,
    stack: &mut Vec<Frame>,
    next: Option<Token>,
    e: Phrase,
    ways: Ways,
) -> Result<(), StepError>
    ensures { Steps result stack.new.items (behind next (view e) ways.states ways.values (stack_of stack.old.items)) }
{
    match pop(stack) {
        Some(Frame::Block(inner)) => behind_item(alloc, stack, next, e, ways, inner),
        Some(Frame::Connecting { connective, left }) => {
            connected(alloc, stack, next, e, connective, left)
        }
        Some(Frame::Relating { comparison, left }) => {
            related(alloc, stack, next, e, comparison, left)
        }
        Some(Frame::Fields(inner)) => behind_field(alloc, stack, next, e, inner),
        Some(Frame::Key { key, at, .. }) => behind_value(alloc, stack, next, e, key, at),
        Some(Frame::Listing(inner)) => behind_element(alloc, stack, next, e, inner),
        Some(Frame::Enclosing { at, .. }) => close_paren(alloc, stack, next, e, ways.states, at),
        Some(Frame::Parts { at, parts }) => behind_part(alloc, stack, next, e, at, parts),
        Some(Frame::Raising { at }) => raised(alloc, stack, next, e, at),
        Some(Frame::Testing { at, ways, arms }) => tested(alloc, stack, next, e, at, ways, arms),
        Some(Frame::Matching { at }) => subjected(alloc, stack, next, e, at),
        Some(
            Frame::Patterns {
                at,
                subject,
                ways,
                clauses,
            },
        ) => claused(alloc, stack, next, e, at, subject, ways, clauses),
        Some(Frame::Catching { body, clauses }) => caught(alloc, stack, next, e, body, clauses),
        _ => Err(StepError::Refused),
    }
}

/// No operator follows.
fn settled(
    alloc: Global,
    stack: &mut Vec<Frame>,
    next: Option<Token>,
    phrase: Phrase,
    ways: Ways,
) -> Result<(), StepError>
    ensures { Steps result stack.new.items (settled next (view phrase) ways.states ways.values (stack_of stack.old.items)) }
{
    let whole = reduce(alloc, stack, 0, phrase, ways.states)?;
    let ways = Ways {
        states: whole.states,
        values: ways.values,
    };
    behind(alloc, stack, next, whole.phrase, ways)
}

/// An operator follows.
fn shift(
    alloc: Global,
    stack: &mut Vec<Frame>,
    token: Token,
    phrase: Phrase,
    ways: Ways,
) -> Result<(), StepError>
    ensures { Steps result stack.new.items (shift token (view phrase) ways.states ways.values (stack_of stack.old.items)) }
{
    if !ways.values {
        return Err(StepError::Refused);
    }
    let kind = kind_of(stack.as_slice());
    shift_in(alloc, stack, kind, token, phrase, ways.states)
}

/// What comes behind a phrase that has come to an end.
fn after(
    alloc: Global,
    stack: &mut Vec<Frame>,
    next: Option<Token>,
    phrase: Phrase,
    ways: Ways,
) -> Result<(), StepError>
    ensures { Steps result stack.new.items (after next (view phrase) ways.states ways.values (stack_of stack.old.items)) }
{
    let Some(token) = next else {
        return settled(alloc, stack, None, phrase, ways);
    };
    if is_operator(token) {
        return shift(alloc, stack, token, phrase, ways);
    }
    settled(alloc, stack, Some(token), phrase, ways)
}

/// What `.` waits for begins.
fn feature_in(
    alloc: Global,
    stack: &mut Vec<Frame>,
    frame: Frame,
    next: Option<Token>,
) -> Result<(), StepError>
    ensures { Steps result stack.new.items (feature_begins next (frame_of frame ∷ stack_of stack.old.items)) }
{
    push(stack, frame)?;
    feature_begins(alloc, stack, next)
}

/// What `@` waits for begins.
fn access_in(
    alloc: Global,
    stack: &mut Vec<Frame>,
    at: usize,
    next: Option<Token>,
) -> Result<(), StepError>
    ensures { Steps result stack.new.items (access_begins next (accessing at ∷ stack_of stack.old.items)) }
{
    push(stack, Frame::Accessing { at })?;
    access_begins(alloc, stack, next)
}

/// Takes one more token, or the end of the text.
pub fn take(alloc: Global, stack: &mut Vec<Frame>, token: Option<Token>) -> Result<(), StepError>
    ensures { Steps result stack.new.items (next token (stack_of stack.old.items)) }
{
    match pop(stack) {
        Some(Frame::Block(inner)) => item(alloc, stack, token, false, inner),
        Some(Frame::Whole { phrase, ways }) => after(alloc, stack, token, phrase, ways),
        Some(Frame::Fields(inner)) => next_field(alloc, stack, token, inner),
        Some(Frame::Listing(inner)) => next_element(alloc, stack, token, inner),
        Some(Frame::Parts { at, parts }) => next_part(alloc, stack, token, at, parts),
        Some(Frame::Dotted(record)) => feature_in(alloc, stack, Frame::Dotted(record), token),
        Some(Frame::Accessing { at }) => access_in(alloc, stack, at, token),
        Some(Frame::Heading(maker)) => open_head(alloc, stack, token, maker),
        Some(Frame::Heads { maker, at, names }) => {
            next_head(alloc, stack, token, maker, at, names)
        }
        Some(Frame::Accepted(_)) => Err(StepError::Refused),
        Some(frame) => operand_in(alloc, stack, frame, token),
        None => operand(alloc, stack, token),
    }
}

/// Nothing is read yet.
pub fn start(alloc: Global) -> Result<Vec<Frame>, AllocError>
    ensures { IfOk result (λ stack. stack_of stack.items ≡ start) }
{
    let mut stack = Vec::new(alloc);
    stack.push(Frame::Block(begun(alloc, Opener::Program)))?;
    Ok(stack)
}

/// The program, where one is accepted.
fn program_of(frame: Frame) -> Option<Phrase>
    ensures { option_map view result ≡ program_of (frame_of frame) }
{
    match frame {
        Frame::Accepted(program) => Some(program),
        _ => None,
    }
}

/// The program that is accepted.
#[tactic(auto, using(crate::proofs::AcceptLaws::accepted_alone, crate::proofs::AcceptLaws::accepted_of_many))]
fn accepted(mut stack: Vec<Frame>) -> Option<Phrase>
    ensures { option_map view result ≡ accepted_of (stack_of stack.items) }
{
    if stack.len() != 1 {
        return None;
    }
    let frame = pop(&mut stack)?;
    program_of(frame)
}

/// The program, if the text may end here.
pub fn finish(alloc: Global, mut stack: Vec<Frame>) -> Result<Phrase, StepError>
    ensures { Gives view result (finish (stack_of stack.items)) }
{
    take(alloc, &mut stack, None)?;
    accepted(stack).ok_or(StepError::Refused)
}
