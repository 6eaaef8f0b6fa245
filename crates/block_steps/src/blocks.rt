//! Steps of blocks: their phrases, one after another.
ghost use Rattle.std.specs.Prelude.{◌≡◌, ◌∷◌, ◌++◌, ◌||◌, [], Some, None, true, false};
ghost use Rattle.oz_language.specs.Grammar.{var, skip};
ghost use Rattle.oz_syntax.specs.View.{view, views};
ghost use Rattle.reader_law.specs.Machine.{guard, block, whole, of_paren, enter, item, item_over, declares, is_begun, expression_begins};
ghost use Rattle.open_constructs.specs.View.{Steps, stack_of, opener_of, frame_of};
ghost use Rattle.block_steps.specs.Items.{other_item};

use construct_steps::{close, is_named_head};
use expression_steps::expression_begins;
use open_constructs::{
    Block, Frame, Maker, Opener, StepError, Ways, begun, is_some_item, is_var, open_block,
    pop_block, push,
};
use oz_language::{Connective, Token};
use oz_syntax::Phrase;
use std::alloc::Global;

/// `in` behind declarations.
fn enter(alloc: Global, stack: &mut Vec<Frame>, inner: Block) -> Result<(), StepError>
    ensures { Steps result stack.new.items (enter (opener_of inner.opener) inner.declares (views inner.phrases.items) (stack_of stack.old.items)) }
{
    if !inner.declares || !is_some_item(&inner.phrases) {
        return Err(StepError::Refused);
    }
    match inner.opener {
        Opener::Declaring { at } => {
            let declarations = inner.phrases;
            open_block(alloc, stack, Opener::Local { at, declarations })
        }
        opener => {
            let entered = Block {
                opener,
                declares: false,
                states: true,
                declarations: inner.phrases,
                phrases: Vec::new(alloc),
            };
            push(stack, Frame::Block(entered))
        }
    }
}

/// Opens what may stand among statements alone.
fn open_statement(stack: &mut Vec<Frame>, inner: Block, frame: Frame) -> Result<(), StepError>
    ensures { Steps result stack.new.items (guard inner.states (Some (frame_of frame ∷ frame_of (Frame.Block inner) ∷ stack_of stack.old.items))) }
{
    if !inner.states {
        return Err(StepError::Refused);
    }
    push(stack, Frame::Block(inner))?;
    push(stack, frame)
}

/// Opens what may stand among declarations, and among statements.
fn open_either(stack: &mut Vec<Frame>, inner: Block, frame: Frame) -> Result<(), StepError>
    ensures { Steps result stack.new.items (guard (inner.declares || inner.states) (Some (frame_of frame ∷ frame_of (Frame.Block inner) ∷ stack_of stack.old.items))) }
{
    if !inner.declares && !inner.states {
        return Err(StepError::Refused);
    }
    push(stack, Frame::Block(inner))?;
    push(stack, frame)
}

/// A variable.
fn named(name: u32, at: usize) -> Frame
    ensures { frame_of result ≡ whole (var name at) false true }
{
    Frame::Whole {
        phrase: Phrase::Var { name, at },
        ways: Ways {
            states: false,
            values: true,
        },
    }
}

/// `skip`
fn skipped() -> Frame
    ensures { frame_of result ≡ whole skip true false }
{
    Frame::Whole {
        phrase: Phrase::Skip,
        ways: Ways {
            states: true,
            values: false,
        },
    }
}

/// A parenthesis of statements, of which nothing is read.
fn in_paren(alloc: Global, at: usize) -> Frame
    ensures { frame_of result ≡ block (of_paren at) false true [] [] }
{
    Frame::Block(Block {
        opener: Opener::Paren { at },
        declares: false,
        states: true,
        declarations: Vec::new(alloc),
        phrases: Vec::new(alloc),
    })
}

/// A phrase of a block begins with this token, whatever it is.
fn is_begun(token: Token) -> bool
    ensures { result ≡ is_begun token }
{
    matches!(
        token,
        Token::Any { .. }
            | Token::Int { .. }
            | Token::String { .. }
            | Token::Literal { .. }
            | Token::Label { .. }
            | Token::OpenBracket { .. }
            | Token::OpenBrace { .. }
            | Token::At { .. }
            | Token::Fail { .. }
            | Token::Raise { .. }
            | Token::Local { .. }
            | Token::Thread { .. }
            | Token::Choice { .. }
            | Token::If { .. }
            | Token::Case { .. }
    )
}

/// An expression begins, where it may be a statement.
fn begin_statement(
    alloc: Global,
    stack: &mut Vec<Frame>,
    token: Token,
    inner: Block,
) -> Result<(), StepError>
    ensures { Steps result stack.new.items (guard inner.states (expression_begins token (frame_of (Frame.Block inner) ∷ stack_of stack.old.items))) }
{
    if !inner.states {
        return Err(StepError::Refused);
    }
    push(stack, Frame::Block(inner))?;
    expression_begins(alloc, stack, token)
}

/// An expression begins, or the block ends.
fn other_item(
    alloc: Global,
    stack: &mut Vec<Frame>,
    next: Option<Token>,
    values: bool,
    inner: Block,
) -> Result<(), StepError>
    ensures { Steps result stack.new.items (other_item next (opener_of inner.opener) inner.declares inner.states values (views inner.declarations.items) (views inner.phrases.items) (stack_of stack.old.items)) }
{
    let Some(token) = next else {
        return close(alloc, stack, None, values, inner);
    };
    if is_begun(token) {
        return begin_statement(alloc, stack, token, inner);
    }
    close(alloc, stack, Some(token), values, inner)
}

/// The next phrase of a block begins, or the block ends. Its phrases may be statements and a value, or not.
pub fn item(
    alloc: Global,
    stack: &mut Vec<Frame>,
    next: Option<Token>,
    values: bool,
    inner: Block,
) -> Result<(), StepError>
    ensures { Steps result stack.new.items (item next (opener_of inner.opener) inner.declares inner.states values (views inner.declarations.items) (views inner.phrases.items) (stack_of stack.old.items)) }
{
    match next {
        Some(Token::In) => enter(alloc, stack, inner),
        Some(Token::Var { name, at }) => open_either(stack, inner, named(name, at)),
        Some(Token::Proc { at }) => open_either(stack, inner, Frame::Heading(Maker::Proc { at })),
        Some(Token::Fun { at }) => {
            open_either(stack, inner, Frame::Heading(Maker::Fun { at, lazy: None }))
        }
        Some(Token::Skip) => open_statement(stack, inner, skipped()),
        Some(Token::Try) => {
            open_statement(stack, inner, Frame::Block(begun(alloc, Opener::Try)))
        }
        Some(Token::OpenParen { at }) => open_statement(stack, inner, in_paren(alloc, at)),
        _ => other_item(alloc, stack, next, values, inner),
    }
}

/// A phrase that may be a declaration.
fn declares(phrase: &Phrase) -> bool
    ensures { result ≡ declares (view phrase.now) }
{
    match phrase {
        Phrase::Var { .. } => true,
        Phrase::Connected {
            connective: Connective::Equates,
            left,
            ..
        } => is_var(left),
        Phrase::Proc { head, .. } | Phrase::Fun { head, .. } => is_named_head(head),
        _ => false,
    }
}

/// A phrase of this block has ended.
#[tactic(auto, using(open_constructs::proofs::Views::views_push))]
pub fn goes_on(
    alloc: Global,
    stack: &mut Vec<Frame>,
    next: Option<Token>,
    phrase: Phrase,
    ways: Ways,
    mut inner: Block,
) -> Result<(), StepError>
    ensures { Steps result stack.new.items (item_over next (view phrase) ways.states ways.values (frame_of (Frame.Block inner) ∷ stack_of stack.old.items)) }
{
    let values = inner.states && ways.values;
    inner.declares = inner.declares && declares(&phrase);
    inner.states = inner.states && ways.states;
    inner.phrases.push(phrase)?;
    item(alloc, stack, next, values, inner)
}

/// A phrase of a block has ended.
#[tactic(auto, using(crate::proofs::ItemLaws::over_outside))]
pub fn item_over(
    alloc: Global,
    stack: &mut Vec<Frame>,
    next: Option<Token>,
    phrase: Phrase,
    ways: Ways,
) -> Result<(), StepError>
    ensures { Steps result stack.new.items (item_over next (view phrase) ways.states ways.values (stack_of stack.old.items)) }
{
    let Some(inner) = pop_block(stack) else {
        return Err(StepError::Refused);
    };
    goes_on(alloc, stack, next, phrase, ways, inner)
}
