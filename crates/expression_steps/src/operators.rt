//! Operators between operands, and where what they bind ends.
ghost use Rattle.std.specs.Prelude.{◌≡◌, ◌∷◌, ◌++◌, [], Some, false};
ghost use Rattle.oz_syntax.specs.View.{view, views};
ghost use Rattle.reader_law.specs.Machine.{guard, reduce, allows, shift_infix, add_bar, shift_bar, add_hash, shift_hash, shift_expression, shift_pattern, add_term, shift_sign, takes_factor, shift_side, shift_in, is_operator, dotted, barred, hashed};
ghost use Rattle.oz_language.specs.Grammar.{level_of_bars, level_of_hashes};
ghost use Rattle.open_constructs.specs.View.{Steps, stack_of, kind_seen};
ghost use Rattle.expression_steps.specs.Operands.{Reduces, takes_term};

use open_constructs::{
    BARS, Frame, HASHES, Kind, SELECTIONS, StepError, allows, binds, have_room, innermost,
    is_reference, left_level, level_of, pop, push,
};
use oz_language::{Operator, Token};
use oz_syntax::Phrase;
use std::alloc::Global;

/// A phrase, and whether it is a statement.
#[derive(Drop)]
pub struct Reduced {
    pub phrase: Phrase,
    pub states: bool,
}

/// What binds at least at a level comes to its end with its last operand. No more operators wait than there are levels.
#[tactic(auto, using(open_constructs::proofs::Views::views_push))]
pub fn reduce(
    alloc: Global,
    stack: &mut Vec<Frame>,
    level: u8,
    phrase: Phrase,
    states: bool,
) -> Result<Reduced, StepError>
    ensures { Reduces result stack.new.items (reduce level (view phrase) states (stack_of stack.old.items)) }
{
    match pop(stack) {
        Some(Frame::Left { operator, operand }) if level <= level_of(operator) => {
            let right = Box::new(alloc, phrase)?;
            let whole = Phrase::Binary {
                operator,
                left: operand,
                right,
            };
            reduce(alloc, stack, level, whole, false)
        }
        Some(Frame::Barred(mut elements)) if level <= BARS => {
            elements.push(phrase)?;
            reduce(alloc, stack, level, Phrase::Bars { elements }, false)
        }
        Some(Frame::Hashed(mut elements)) if level <= HASHES => {
            elements.push(phrase)?;
            reduce(alloc, stack, level, Phrase::Hashes { elements }, false)
        }
        Some(outer) => {
            push(stack, outer)?;
            Ok(Reduced { phrase, states })
        }
        None => Ok(Reduced { phrase, states }),
    }
}

/// An operator stands behind its left side.
fn shift_infix(
    alloc: Global,
    stack: &mut Vec<Frame>,
    operator: Operator,
    phrase: Phrase,
    states: bool,
) -> Result<(), StepError>
    ensures { Steps result stack.new.items (shift_infix operator (view phrase) states (stack_of stack.old.items)) }
{
    let level = level_of(operator);
    let left = reduce(alloc, stack, level, phrase, states)?;
    if binds(&left.phrase) < left_level(operator) {
        return Err(StepError::Refused);
    }
    if !allows(level, stack.as_slice()) {
        return Err(StepError::Refused);
    }
    let operand = Box::new(alloc, left.phrase)?;
    push(stack, Frame::Left { operator, operand })
}

/// A chain of `|` begins.
#[tactic(auto, using(open_constructs::proofs::Views::views_push))]
fn begin_bars(alloc: Global, stack: &mut Vec<Frame>, phrase: Phrase) -> Result<(), StepError>
    ensures { Steps result stack.new.items (guard (allows level_of_bars (stack_of stack.old.items)) (Some (barred (view phrase ∷ []) ∷ stack_of stack.old.items))) }
{
    if !allows(BARS, stack.as_slice()) {
        return Err(StepError::Refused);
    }
    let mut elements = Vec::new(alloc);
    elements.push(phrase)?;
    push(stack, Frame::Barred(elements))
}

/// A chain of `|` goes on, or begins.
#[tactic(auto, using(open_constructs::proofs::Views::views_push))]
fn add_bar(alloc: Global, stack: &mut Vec<Frame>, phrase: Phrase) -> Result<(), StepError>
    ensures { Steps result stack.new.items (add_bar (view phrase) (stack_of stack.old.items)) }
{
    match pop(stack) {
        Some(Frame::Barred(mut elements)) => {
            elements.push(phrase)?;
            push(stack, Frame::Barred(elements))
        }
        Some(outer) => {
            push(stack, outer)?;
            begin_bars(alloc, stack, phrase)
        }
        None => begin_bars(alloc, stack, phrase),
    }
}

fn shift_bar(
    alloc: Global,
    stack: &mut Vec<Frame>,
    phrase: Phrase,
    states: bool,
) -> Result<(), StepError>
    ensures { Steps result stack.new.items (shift_bar (view phrase) states (stack_of stack.old.items)) }
{
    let left = reduce(alloc, stack, HASHES, phrase, states)?;
    add_bar(alloc, stack, left.phrase)
}

/// A chain of `#` begins.
#[tactic(auto, using(open_constructs::proofs::Views::views_push))]
fn begin_hashes(alloc: Global, stack: &mut Vec<Frame>, phrase: Phrase) -> Result<(), StepError>
    ensures { Steps result stack.new.items (guard (allows level_of_hashes (stack_of stack.old.items)) (Some (hashed (view phrase ∷ []) ∷ stack_of stack.old.items))) }
{
    if !allows(HASHES, stack.as_slice()) {
        return Err(StepError::Refused);
    }
    let mut elements = Vec::new(alloc);
    elements.push(phrase)?;
    push(stack, Frame::Hashed(elements))
}

/// A chain of `#` goes on, or begins.
#[tactic(auto, using(open_constructs::proofs::Views::views_push))]
fn add_hash(alloc: Global, stack: &mut Vec<Frame>, phrase: Phrase) -> Result<(), StepError>
    ensures { Steps result stack.new.items (add_hash (view phrase) (stack_of stack.old.items)) }
{
    match pop(stack) {
        Some(Frame::Hashed(mut elements)) => {
            elements.push(phrase)?;
            push(stack, Frame::Hashed(elements))
        }
        Some(outer) => {
            push(stack, outer)?;
            begin_hashes(alloc, stack, phrase)
        }
        None => begin_hashes(alloc, stack, phrase),
    }
}

fn shift_hash(
    alloc: Global,
    stack: &mut Vec<Frame>,
    phrase: Phrase,
    states: bool,
) -> Result<(), StepError>
    ensures { Steps result stack.new.items (shift_hash (view phrase) states (stack_of stack.old.items)) }
{
    let left = reduce(alloc, stack, HASHES + 1, phrase, states)?;
    add_hash(alloc, stack, left.phrase)
}

/// What is selected is to come.
fn wait_for_feature(alloc: Global, stack: &mut Vec<Frame>, phrase: Phrase) -> Result<(), StepError>
    ensures { Steps result stack.new.items (Some (dotted (view phrase) ∷ stack_of stack.old.items)) }
{
    let record = Box::new(alloc, phrase)?;
    push(stack, Frame::Dotted(record))
}

fn shift_dot(alloc: Global, stack: &mut Vec<Frame>, phrase: Phrase) -> Result<(), StepError>
    ensures { Steps result stack.new.items (shift_expression Token.Dot (view phrase) false (stack_of stack.old.items)) }
{
    if !allows(SELECTIONS, stack.as_slice()) {
        return Err(StepError::Refused);
    }
    wait_for_feature(alloc, stack, phrase)
}

fn shift_expression(
    alloc: Global,
    stack: &mut Vec<Frame>,
    token: Token,
    phrase: Phrase,
    states: bool,
) -> Result<(), StepError>
    ensures { Steps result stack.new.items (shift_expression token (view phrase) states (stack_of stack.old.items)) }
{
    match token {
        Token::Infix { operator } => shift_infix(alloc, stack, operator, phrase, states),
        Token::Bar => shift_bar(alloc, stack, phrase, states),
        Token::Hash => shift_hash(alloc, stack, phrase, states),
        Token::Dot => shift_dot(alloc, stack, phrase),
        _ => Err(StepError::Refused),
    }
}

fn shift_pattern(
    alloc: Global,
    stack: &mut Vec<Frame>,
    token: Token,
    phrase: Phrase,
    states: bool,
) -> Result<(), StepError>
    ensures { Steps result stack.new.items (shift_pattern token (view phrase) states (stack_of stack.old.items)) }
{
    match token {
        Token::Bar => shift_bar(alloc, stack, phrase, states),
        Token::Hash => shift_hash(alloc, stack, phrase, states),
        _ => Err(StepError::Refused),
    }
}

/// The right side of a relation has room for another term.
fn takes_term(stack: &[Frame], phrase: &Phrase) -> bool
    ensures { result ≡ takes_term (view phrase.now) (stack_of stack.now) }
{
    match innermost(stack) {
        Some((Frame::Relating { left, .. }, _)) => have_room(left, phrase),
        _ => false,
    }
}

/// A further term of the right side of a relation is to come.
#[tactic(auto, using(crate::proofs::TermLaws::add_term_as))]
fn add_term(
    alloc: Global,
    stack: &mut Vec<Frame>,
    operator: Operator,
    phrase: Phrase,
) -> Result<(), StepError>
    ensures { Steps result stack.new.items (add_term operator (view phrase) (stack_of stack.old.items)) }
{
    if !takes_term(stack.as_slice(), &phrase) {
        return Err(StepError::Refused);
    }
    let operand = Box::new(alloc, phrase)?;
    push(stack, Frame::Left { operator, operand })
}

/// `+` or `-` in the right side of a relation.
fn shift_sign(
    alloc: Global,
    stack: &mut Vec<Frame>,
    operator: Operator,
    phrase: Phrase,
    states: bool,
) -> Result<(), StepError>
    ensures { Steps result stack.new.items (shift_sign operator (view phrase) states (stack_of stack.old.items)) }
{
    let level = level_of(Operator::Plus);
    let left = reduce(alloc, stack, level, phrase, states)?;
    add_term(alloc, stack, operator, left.phrase)
}

/// A product has two factors.
fn takes_factor(stack: &[Frame]) -> bool
    ensures { result ≡ takes_factor (stack_of stack.now) }
{
    !matches!(
        innermost(stack),
        Some((
            Frame::Left {
                operator: Operator::Times,
                ..
            },
            _,
        ),)
    )
}

/// `*` in the right side of a relation.
fn shift_times(alloc: Global, stack: &mut Vec<Frame>, phrase: Phrase) -> Result<(), StepError>
    ensures { Steps result stack.new.items (shift_side (Token.Infix Operator.Times) (view phrase) false (stack_of stack.old.items)) }
{
    if !takes_factor(stack.as_slice()) {
        return Err(StepError::Refused);
    }
    let operand = Box::new(alloc, phrase)?;
    push(
        stack,
        Frame::Left {
            operator: Operator::Times,
            operand,
        },
    )
}

fn shift_side_dot(alloc: Global, stack: &mut Vec<Frame>, phrase: Phrase) -> Result<(), StepError>
    ensures { Steps result stack.new.items (shift_side Token.Dot (view phrase) false (stack_of stack.old.items)) }
{
    if !is_reference(&phrase) {
        return Err(StepError::Refused);
    }
    wait_for_feature(alloc, stack, phrase)
}

fn shift_side(
    alloc: Global,
    stack: &mut Vec<Frame>,
    token: Token,
    phrase: Phrase,
    states: bool,
) -> Result<(), StepError>
    ensures { Steps result stack.new.items (shift_side token (view phrase) states (stack_of stack.old.items)) }
{
    match token {
        Token::Infix {
            operator: Operator::Plus,
        } => shift_sign(alloc, stack, Operator::Plus, phrase, states),
        Token::Infix {
            operator: Operator::Minus,
        } => shift_sign(alloc, stack, Operator::Minus, phrase, states),
        Token::Infix {
            operator: Operator::Times,
        } => shift_times(alloc, stack, phrase),
        Token::Dot => shift_side_dot(alloc, stack, phrase),
        _ => Err(StepError::Refused),
    }
}

/// An operator stands behind an operand.
pub fn shift_in(
    alloc: Global,
    stack: &mut Vec<Frame>,
    kind: Kind,
    token: Token,
    phrase: Phrase,
    states: bool,
) -> Result<(), StepError>
    ensures { Steps result stack.new.items (shift_in (kind_seen kind) token (view phrase) states (stack_of stack.old.items)) }
{
    match kind {
        Kind::Expression => shift_expression(alloc, stack, token, phrase, states),
        Kind::Pattern => shift_pattern(alloc, stack, token, phrase, states),
        Kind::Side => shift_side(alloc, stack, token, phrase, states),
    }
}

/// An operator, `|`, `#` or `.`.
pub fn is_operator(token: Token) -> bool
    ensures { result ≡ is_operator token }
{
    matches!(
        token,
        Token::Infix { .. } | Token::Bar | Token::Hash | Token::Dot
    )
}
