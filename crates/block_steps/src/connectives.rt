//! Steps behind the first expression of a block's phrase.
ghost use Rattle.std.specs.Prelude.{◌≡◌, ◌∷◌, ◌&&◌, ◌||◌, Some, nat_le, nat_lt};
ghost use Rattle.oz_language.specs.Grammar.{is_var, is_side, terms_in, terms_limit, level_of_selection};
ghost use Rattle.oz_syntax.specs.View.{view, views};
ghost use Rattle.reader_law.specs.Machine.{guard, binds, behind_item, connecting, relating};
ghost use Rattle.open_constructs.specs.View.{Steps, stack_of, opener_of, frame_of};

use crate::blocks::goes_on;
use open_constructs::{
    Block, Frame, SELECTIONS, StepError, Ways, binds, has_room, is_side, is_var, push,
};
use oz_language::{Comparison, Connective, Token};
use oz_syntax::Phrase;
use std::alloc::Global;

/// The left side of a statement with two sides, if it may stand there.
fn connect(
    alloc: Global,
    stack: &mut Vec<Frame>,
    connective: Connective,
    left: Phrase,
    fits: bool,
    inner: Block,
) -> Result<(), StepError>
    ensures { Steps result stack.new.items (guard fits (Some (connecting connective (view left) ∷ frame_of (Frame.Block inner) ∷ stack_of stack.old.items))) }
{
    if !fits {
        return Err(StepError::Refused);
    }
    let left = Box::new(alloc, left)?;
    push(stack, Frame::Block(inner))?;
    push(stack, Frame::Connecting { connective, left })
}

/// The left side of a relation, if it may stand there.
fn relate(
    alloc: Global,
    stack: &mut Vec<Frame>,
    comparison: Comparison,
    left: Phrase,
    fits: bool,
    inner: Block,
) -> Result<(), StepError>
    ensures { Steps result stack.new.items (guard fits (Some (relating comparison (view left) ∷ frame_of (Frame.Block inner) ∷ stack_of stack.old.items))) }
{
    if !fits {
        return Err(StepError::Refused);
    }
    let left = Box::new(alloc, left)?;
    push(stack, Frame::Block(inner))?;
    push(stack, Frame::Relating { comparison, left })
}

/// An expression may stand before `=`.
fn may_equate(left: &Phrase, values: bool, inner: &Block) -> bool
    ensures { result ≡ values && (inner.now.states || (inner.now.declares && is_var (view left.now))) }
{
    values && (inner.states || (inner.declares && is_var(left)))
}

/// An expression may stand before `::` and `:::`.
fn may_bound(left: &Phrase, values: bool, inner: &Block) -> bool
    ensures { result ≡ values && (inner.now.states && nat_le level_of_selection (binds (view left.now))) }
{
    values && (inner.states && SELECTIONS <= binds(left))
}

/// An expression may be the left side of a relation.
fn may_relate(left: &Phrase, values: bool, inner: &Block) -> bool
    ensures { result ≡ values && (inner.now.states && (is_side (view left.now) && nat_lt (terms_in (view left.now)) terms_limit)) }
{
    values && (inner.states && (is_side(left) && has_room(left)))
}

/// What comes behind the first expression of a block's phrase.
pub fn behind_item(
    alloc: Global,
    stack: &mut Vec<Frame>,
    next: Option<Token>,
    phrase: Phrase,
    ways: Ways,
    inner: Block,
) -> Result<(), StepError>
    ensures { Steps result stack.new.items (behind_item next (view phrase) ways.states ways.values (opener_of inner.opener) inner.declares inner.states (views inner.declarations.items) (views inner.phrases.items) (stack_of stack.old.items)) }
{
    match next {
        Some(Token::Equals) => {
            let fits = may_equate(&phrase, ways.values, &inner);
            connect(alloc, stack, Connective::Equates, phrase, fits, inner)
        }
        Some(Token::Assign) => {
            let fits = ways.values && inner.states;
            connect(alloc, stack, Connective::Assigns, phrase, fits, inner)
        }
        Some(Token::Domain) => {
            let fits = may_bound(&phrase, ways.values, &inner);
            connect(alloc, stack, Connective::Bounds, phrase, fits, inner)
        }
        Some(Token::Domains) => {
            let fits = may_bound(&phrase, ways.values, &inner);
            connect(alloc, stack, Connective::BoundsEach, phrase, fits, inner)
        }
        Some(Token::Relates { comparison }) => {
            let fits = may_relate(&phrase, ways.values, &inner);
            relate(alloc, stack, comparison, phrase, fits, inner)
        }
        _ => goes_on(alloc, stack, next, phrase, ways, inner),
    }
}
