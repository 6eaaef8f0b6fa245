//! Steps of the heads of procedures and functions.
ghost use Rattle.std.specs.Prelude.{◌≡◌, ◌∷◌, ◌++◌, [], Some};
ghost use Rattle.oz_language.specs.Grammar.{is_named_head, is_value_head, is_parameter, are_parameters, of_list, head};
ghost use Rattle.oz_syntax.specs.View.{view, views};
ghost use Rattle.reader_law.specs.Machine.{open_head, made, first_head, next_head, heads};
ghost use Rattle.open_constructs.specs.View.{Steps, stack_of, opener_of, maker_of};
ghost use Rattle.construct_steps.specs.Heads.{lazy_head, later_head, begins_with_name, begins_with_dollar};

use open_constructs::{
    Frame, Maker, Opener, StepError, Ways, in_block, is_some_item, may_value, open_block, push,
};
use oz_language::{Literal, Token};
use oz_syntax::Phrase;
use std::alloc::Global;

/// The number of the word `lazy`.
const LAZY_WORD: u32 = 25;

/// `lazy` before the head of a function.
fn lazy_head(stack: &mut Vec<Frame>, word: u32, place: usize, maker: Maker) -> Result<(), StepError>
    ensures { Steps result stack.new.items (lazy_head word place (maker_of maker) (stack_of stack.old.items)) }
{
    match maker {
        Maker::Fun { at, lazy: None } => {
            if word != LAZY_WORD {
                return Err(StepError::Refused);
            }
            let lazy = Some(place);
            push(stack, Frame::Heading(Maker::Fun { at, lazy }))
        }
        _ => Err(StepError::Refused),
    }
}

/// A head begins.
pub fn open_head(
    alloc: Global,
    stack: &mut Vec<Frame>,
    next: Option<Token>,
    maker: Maker,
) -> Result<(), StepError>
    ensures { Steps result stack.new.items (open_head next (maker_of maker) (stack_of stack.old.items)) }
{
    match next {
        Some(Token::OpenBrace { at }) => {
            let names = Vec::new(alloc);
            push(stack, Frame::Heads { maker, at, names })
        }
        Some(
            Token::Literal {
                literal: Literal::Atom(word),
                at,
            },
        ) => lazy_head(stack, word, at, maker),
        _ => Err(StepError::Refused),
    }
}

/// One name more.
#[tactic(auto, using(open_constructs::proofs::Views::views_push))]
fn push_name(
    stack: &mut Vec<Frame>,
    maker: Maker,
    at: usize,
    mut names: Vec<Phrase>,
    name: Phrase,
) -> Result<(), StepError>
    ensures { Steps result stack.new.items (Some (heads (maker_of maker) at (views names.items ++ view name ∷ []) ∷ stack_of stack.old.items)) }
{
    names.push(name)?;
    push(stack, Frame::Heads { maker, at, names })
}

/// The name of the procedure, or `$`.
fn first_head(
    alloc: Global,
    stack: &mut Vec<Frame>,
    next: Option<Token>,
    maker: Maker,
    at: usize,
) -> Result<(), StepError>
    ensures { Steps result stack.new.items (first_head next (maker_of maker) at (stack_of stack.old.items)) }
{
    match next {
        Some(Token::Var { name, at: place }) => {
            if !in_block(stack.as_slice()) {
                return Err(StepError::Refused);
            }
            let named = Phrase::Var { name, at: place };
            push_name(stack, maker, at, Vec::new(alloc), named)
        }
        Some(Token::Dollar) => {
            if !may_value(stack.as_slice()) {
                return Err(StepError::Refused);
            }
            push_name(stack, maker, at, Vec::new(alloc), Phrase::Dollar)
        }
        _ => Err(StepError::Refused),
    }
}

/// What is made with this head.
fn made(maker: Maker, head: Box<Phrase>) -> Opener
    ensures { opener_of result ≡ made (maker_of maker) (view head.value) }
{
    match maker {
        Maker::Proc { at } => Opener::Proc { at, head },
        Maker::Fun { at, lazy } => Opener::Fun { at, lazy, head },
    }
}

/// A parameter, or the end of the head.
fn later_head(
    alloc: Global,
    stack: &mut Vec<Frame>,
    next: Option<Token>,
    maker: Maker,
    at: usize,
    names: Vec<Phrase>,
) -> Result<(), StepError>
    ensures { Steps result stack.new.items (later_head next (maker_of maker) at (views names.items) (stack_of stack.old.items)) }
{
    match next {
        Some(Token::Var { name, at: place }) => {
            push_name(stack, maker, at, names, Phrase::Var { name, at: place })
        }
        Some(Token::Any { at: place }) => {
            push_name(stack, maker, at, names, Phrase::Any { at: place })
        }
        Some(Token::CloseBrace) => {
            let head = Box::new(alloc, Phrase::Head { at, names })?;
            open_block(alloc, stack, made(maker, head))
        }
        _ => Err(StepError::Refused),
    }
}

/// A head goes on or ends.
#[tactic(auto, using(crate::proofs::HeadLaws::head_begins, crate::proofs::HeadLaws::head_goes_on))]
pub fn next_head(
    alloc: Global,
    stack: &mut Vec<Frame>,
    next: Option<Token>,
    maker: Maker,
    at: usize,
    names: Vec<Phrase>,
) -> Result<(), StepError>
    ensures { Steps result stack.new.items (next_head next (maker_of maker) at (views names.items) (stack_of stack.old.items)) }
{
    if !is_some_item(&names) {
        return first_head(alloc, stack, next, maker, at);
    }
    later_head(alloc, stack, next, maker, at, names)
}

fn is_parameter(phrase: &Phrase) -> bool
    ensures { result ≡ is_parameter (view phrase.now) }
{
    matches!(phrase, Phrase::Var { .. } | Phrase::Any { .. })
}

fn are_parameters(phrases: &[Phrase]) -> bool
    ensures { result ≡ are_parameters (of_list (views phrases.now)) }
{
    phrases.iter().all(|phrase| is_parameter(phrase))
}

fn begins_with_name(names: &[Phrase]) -> bool
    ensures { result ≡ begins_with_name (of_list (views names.now)) }
{
    match names.split_first() {
        Some((Phrase::Var { .. }, parameters)) => are_parameters(parameters),
        _ => false,
    }
}

fn begins_with_dollar(names: &[Phrase]) -> bool
    ensures { result ≡ begins_with_dollar (of_list (views names.now)) }
{
    match names.split_first() {
        Some((Phrase::Dollar, parameters)) => are_parameters(parameters),
        _ => false,
    }
}

/// The head of a procedure that has a name.
#[tactic(auto, using(crate::proofs::HeadLaws::named_names))]
pub fn is_named_head(head: &Phrase) -> bool
    ensures { result ≡ is_named_head (view head.now) }
{
    match head {
        Phrase::Head { names, .. } => begins_with_name(names.as_slice()),
        _ => false,
    }
}

/// The head of a procedure that is a value.
#[tactic(auto, using(crate::proofs::HeadLaws::valued_names))]
fn is_value_head(head: &Phrase) -> bool
    ensures { result ≡ is_value_head (view head.now) }
{
    match head {
        Phrase::Head { names, .. } => begins_with_dollar(names.as_slice()),
        _ => false,
    }
}

/// As what a procedure with this head may be read.
pub fn ways_of_head(head: &Phrase) -> Ways
    ensures named { result.states ≡ is_named_head (view head.now) }
    ensures valued { result.values ≡ is_value_head (view head.now) }
{
    Ways {
        states: is_named_head(head),
        values: is_value_head(head),
    }
}
