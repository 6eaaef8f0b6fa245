//! How expressions, patterns and the sides of relations begin.
ghost use Rattle.std.specs.Prelude.{◌≡◌, ◌∷◌, [], Some, true, false};
ghost use Rattle.oz_syntax.specs.View.{view};
ghost use Rattle.reader_law.specs.Machine.{block, declaring, listing, expression_begins, pattern_begins, takes_int, side_begins, operand, feature_begins, access_begins, fields, testing};
ghost use Rattle.open_constructs.specs.View.{Steps, stack_of, frame_of};
ghost use Rattle.expression_steps.specs.Operands.{term_begins};

use open_constructs::{
    BOTH_WAYS, Block, Fields, Frame, Kind, Listing, Maker, Opener, StepError, had, innermost,
    is_small, is_small_int, kind_of, open_block, push, value,
};
use oz_language::{Literal, Operator, Token};
use oz_syntax::Phrase;
use std::alloc::Global;

/// A record of which nothing is read but its label.
fn open_fields(alloc: Global, in_pattern: bool, label: Literal, at: usize) -> Frame
    ensures { frame_of result ≡ fields in_pattern label at [] }
{
    Frame::Fields(Fields {
        in_pattern,
        label,
        at,
        phrases: Vec::new(alloc),
    })
}

/// A list of which nothing is read.
fn open_listing(alloc: Global, in_pattern: bool, at: usize) -> Frame
    ensures { frame_of result ≡ listing in_pattern at [] }
{
    Frame::Listing(Listing {
        in_pattern,
        at,
        elements: Vec::new(alloc),
    })
}

/// What begins an expression and a pattern alike.
fn term_begins(
    alloc: Global,
    stack: &mut Vec<Frame>,
    in_pattern: bool,
    token: Token,
) -> Result<(), StepError>
    ensures { Steps result stack.new.items (term_begins in_pattern token (stack_of stack.old.items)) }
{
    match token {
        Token::Var { name, at } => value(alloc, stack, Phrase::Var { name, at }),
        Token::Any { at } => value(alloc, stack, Phrase::Any { at }),
        Token::Int { value: int, at } => value(alloc, stack, Phrase::Int { value: int, at }),
        Token::String { text, at } => value(alloc, stack, Phrase::String { text, at }),
        Token::Literal { literal, at } => value(alloc, stack, Phrase::Literal { literal, at }),
        Token::Label { literal, at } => push(stack, open_fields(alloc, in_pattern, literal, at)),
        Token::OpenParen { at } => push(stack, Frame::Enclosing { in_pattern, at }),
        Token::OpenBracket { at } => push(stack, open_listing(alloc, in_pattern, at)),
        _ => Err(StepError::Refused),
    }
}

#[tactic(auto, using(crate::proofs::TermLaws::pattern_as_term))]
fn pattern_begins(alloc: Global, stack: &mut Vec<Frame>, token: Token) -> Result<(), StepError>
    ensures { Steps result stack.new.items (pattern_begins token (stack_of stack.old.items)) }
{
    term_begins(alloc, stack, true, token)
}

/// The declarations behind `local`, of which nothing is read.
fn declaring(alloc: Global, at: usize) -> Frame
    ensures { frame_of result ≡ block (declaring at) true false [] [] }
{
    Frame::Block(Block {
        opener: Opener::Declaring { at },
        declares: true,
        states: false,
        declarations: Vec::new(alloc),
        phrases: Vec::new(alloc),
    })
}

/// An `if` of which nothing is read.
fn testing(alloc: Global, at: usize) -> Frame
    ensures { frame_of result ≡ testing at true true [] }
{
    Frame::Testing {
        at,
        ways: BOTH_WAYS,
        arms: Vec::new(alloc),
    }
}

/// A `choice` begins.
fn open_choice(alloc: Global, stack: &mut Vec<Frame>, at: usize) -> Result<(), StepError>
    ensures { Steps result stack.new.items (expression_begins (Token.Choice at) (stack_of stack.old.items)) }
{
    let opener = Opener::Choice {
        at,
        ways: BOTH_WAYS,
        alternatives: Vec::new(alloc),
    };
    open_block(alloc, stack, opener)
}

/// A call begins.
fn open_parts(alloc: Global, stack: &mut Vec<Frame>, at: usize) -> Result<(), StepError>
    ensures { Steps result stack.new.items (expression_begins (Token.OpenBrace at) (stack_of stack.old.items)) }
{
    let parts = Vec::new(alloc);
    push(stack, Frame::Parts { at, parts })
}

/// An expression begins where no statement does.
pub fn expression_begins(
    alloc: Global,
    stack: &mut Vec<Frame>,
    token: Token,
) -> Result<(), StepError>
    ensures { Steps result stack.new.items (expression_begins token (stack_of stack.old.items)) }
{
    match token {
        Token::OpenBrace { at } => open_parts(alloc, stack, at),
        Token::At { at } => push(stack, Frame::Accessing { at }),
        Token::Fail { at } => had(alloc, stack, Phrase::Fail { at }, BOTH_WAYS),
        Token::Raise { at } => push(stack, Frame::Raising { at }),
        Token::Proc { at } => push(stack, Frame::Heading(Maker::Proc { at })),
        Token::Fun { at } => push(stack, Frame::Heading(Maker::Fun { at, lazy: None })),
        Token::Local { at } => push(stack, declaring(alloc, at)),
        Token::Thread { at } => open_block(alloc, stack, Opener::Thread { at }),
        Token::Choice { at } => open_choice(alloc, stack, at),
        Token::If { at } => push(stack, testing(alloc, at)),
        Token::Case { at } => push(stack, Frame::Matching { at }),
        _ => term_begins(alloc, stack, false, token),
    }
}

/// No integer stands behind another one and `*`.
fn takes_int(stack: &[Frame]) -> bool
    ensures { result ≡ takes_int (stack_of stack.now) }
{
    match innermost(stack) {
        Some(
            (
                Frame::Left {
                    operator: Operator::Times,
                    operand,
                },
                _,
            ),
        ) => !is_small_int(operand),
        _ => true,
    }
}

/// The right side of a relation begins, or a term of it.
fn side_begins(alloc: Global, stack: &mut Vec<Frame>, token: Token) -> Result<(), StepError>
    ensures { Steps result stack.new.items (side_begins token (stack_of stack.old.items)) }
{
    match token {
        Token::Var { name, at } => value(alloc, stack, Phrase::Var { name, at }),
        Token::Int { value: int, at } => {
            if !is_small(int) {
                return Err(StepError::Refused);
            }
            if !takes_int(stack.as_slice()) {
                return Err(StepError::Refused);
            }
            value(alloc, stack, Phrase::Int { value: int, at })
        }
        _ => Err(StepError::Refused),
    }
}

/// What is to come begins.
pub fn operand(alloc: Global, stack: &mut Vec<Frame>, next: Option<Token>) -> Result<(), StepError>
    ensures { Steps result stack.new.items (operand next (stack_of stack.old.items)) }
{
    let Some(token) = next else {
        return Err(StepError::Refused);
    };
    match kind_of(stack.as_slice()) {
        Kind::Expression => expression_begins(alloc, stack, token),
        Kind::Pattern => pattern_begins(alloc, stack, token),
        Kind::Side => side_begins(alloc, stack, token),
    }
}

/// What is to come in a construct begins, and the construct stays open.
pub fn operand_in(
    alloc: Global,
    stack: &mut Vec<Frame>,
    frame: Frame,
    next: Option<Token>,
) -> Result<(), StepError>
    ensures { Steps result stack.new.items (operand next (frame_of frame ∷ stack_of stack.old.items)) }
{
    push(stack, frame)?;
    operand(alloc, stack, next)
}

/// What is selected begins.
pub fn feature_begins(
    alloc: Global,
    stack: &mut Vec<Frame>,
    next: Option<Token>,
) -> Result<(), StepError>
    ensures { Steps result stack.new.items (feature_begins next (stack_of stack.old.items)) }
{
    let Some(token) = next else {
        return Err(StepError::Refused);
    };
    match token {
        Token::Var { name, at } => value(alloc, stack, Phrase::Var { name, at }),
        Token::Int { value: int, at } => value(alloc, stack, Phrase::Int { value: int, at }),
        Token::Literal { literal, at } => value(alloc, stack, Phrase::Literal { literal, at }),
        Token::OpenParen { at } => push(
            stack,
            Frame::Enclosing {
                in_pattern: false,
                at,
            },
        ),
        _ => Err(StepError::Refused),
    }
}

/// What is read from begins, behind `@`.
pub fn access_begins(
    alloc: Global,
    stack: &mut Vec<Frame>,
    next: Option<Token>,
) -> Result<(), StepError>
    ensures { Steps result stack.new.items (access_begins next (stack_of stack.old.items)) }
{
    let Some(token) = next else {
        return Err(StepError::Refused);
    };
    match token {
        Token::Var { name, at } => value(alloc, stack, Phrase::Var { name, at }),
        Token::OpenParen { at } => push(
            stack,
            Frame::Enclosing {
                in_pattern: false,
                at,
            },
        ),
        _ => Err(StepError::Refused),
    }
}
