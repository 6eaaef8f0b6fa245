//! Steps of records, and of their keys.
ghost use Rattle.std.specs.Prelude.{◌≡◌, ◌∷◌, ◌++◌, [], Some};
ghost use Rattle.oz_syntax.specs.View.{view, views};
ghost use Rattle.reader_law.specs.Machine.{next_field, turn_key, behind_field, behind_value, key as keyed_by};
ghost use Rattle.open_constructs.specs.View.{Steps, stack_of, frame_of};
ghost use Rattle.expression_steps.specs.Operands.{key_of};

use crate::operands::operand_in;
use open_constructs::{Fields, Frame, StepError, pop_fields, push, value};
use oz_language::{Constant, Token};
use oz_syntax::Phrase;
use std::alloc::Global;

/// The next field begins, or the record ends.
pub fn next_field(
    alloc: Global,
    stack: &mut Vec<Frame>,
    next: Option<Token>,
    inner: Fields,
) -> Result<(), StepError>
    ensures { Steps result stack.new.items (next_field next inner.in_pattern inner.label inner.at (views inner.phrases.items) (stack_of stack.old.items)) }
{
    match next {
        Some(Token::CloseParen) => {
            let whole = Phrase::Record {
                label: inner.label,
                at: inner.at,
                fields: inner.phrases,
            };
            value(alloc, stack, whole)
        }
        _ => operand_in(alloc, stack, Frame::Fields(inner), next),
    }
}

fn open_key(
    stack: &mut Vec<Frame>,
    inner: Fields,
    key: Constant,
    at: usize,
) -> Result<(), StepError>
    ensures { Steps result stack.new.items (Some (keyed_by inner.in_pattern key at ∷ frame_of (Frame.Fields inner) ∷ stack_of stack.old.items)) }
{
    let in_pattern = inner.in_pattern;
    push(stack, Frame::Fields(inner))?;
    let frame = Frame::Key {
        in_pattern,
        key,
        at,
    };
    push(stack, frame)
}

/// What an expression is as a key, with its place.
fn key_of(e: &Phrase) -> Option<(Constant, usize)>
    ensures { result ≡ key_of (view e.now) }
{
    match e {
        Phrase::Int { value, at } => Some((Constant::Int(*value), *at)),
        Phrase::Literal { literal, at } => Some((Constant::Literal(*literal), *at)),
        _ => None,
    }
}

/// An integer or a literal turns out to be a key.
#[tactic(auto, using(crate::proofs::TermLaws::turn_as))]
fn turn_key(stack: &mut Vec<Frame>, e: Phrase, inner: Fields) -> Result<(), StepError>
    ensures { Steps result stack.new.items (turn_key (view e) inner.in_pattern (frame_of (Frame.Fields inner) ∷ stack_of stack.old.items)) }
{
    let Some((key, at)) = key_of(&e) else {
        return Err(StepError::Refused);
    };
    open_key(stack, inner, key, at)
}

/// What comes behind a field, or its key.
#[tactic(auto, using(open_constructs::proofs::Views::views_push))]
pub fn behind_field(
    alloc: Global,
    stack: &mut Vec<Frame>,
    next: Option<Token>,
    e: Phrase,
    mut inner: Fields,
) -> Result<(), StepError>
    ensures { Steps result stack.new.items (behind_field next (view e) inner.in_pattern inner.label inner.at (views inner.phrases.items) (stack_of stack.old.items)) }
{
    match next {
        Some(Token::Colon) => turn_key(stack, e, inner),
        _ => {
            inner.phrases.push(e)?;
            next_field(alloc, stack, next, inner)
        }
    }
}

/// A field with a key ends.
#[tactic(auto, using(open_constructs::proofs::Views::views_push, crate::proofs::TermLaws::behind_value_none))]
pub fn behind_value(
    alloc: Global,
    stack: &mut Vec<Frame>,
    next: Option<Token>,
    e: Phrase,
    key: Constant,
    at: usize,
) -> Result<(), StepError>
    ensures { Steps result stack.new.items (behind_value next (view e) key at (stack_of stack.old.items)) }
{
    let Some(mut inner) = pop_fields(stack) else {
        return Err(StepError::Refused);
    };
    let value = Box::new(alloc, e)?;
    inner.phrases.push(Phrase::Keyed { key, at, value })?;
    next_field(alloc, stack, next, inner)
}
