//! What is open, the newest last, and what goes onto it.
ghost use Rattle.std.specs.Prelude.{◌≡◌, ◌+◌, ◌∷◌, [], length, Some, true, false, IfSome, IfNone};
ghost use Rattle.oz_language.specs.Grammar.{is_var};
ghost use Rattle.oz_syntax.specs.View.{view, views};
ghost use Rattle.reader_law.specs.Machine.{is_some_item, opened, block, whole, may_state, may_value, in_block, kind_by, kind_of, is_alive, had, ends, value};
ghost use Rattle.open_constructs.specs.View.{Steps, is_in_block, is_in_fields, stack_of, opener_of, frame_of, kind_seen};

use crate::error::StepError;
use crate::frame::{Block, Fields, Frame, Kind, Opener, Ways};
use oz_syntax::Phrase;
use std::alloc::Global;

/// A construct is open in what was open before.
#[tactic(auto, using(crate::proofs::Views::stack_push))]
pub fn push(stack: &mut Vec<Frame>, frame: Frame) -> Result<(), StepError>
    ensures { Steps result stack.new.items (Some (frame_of frame ∷ stack_of stack.old.items)) }
{
    stack.push(frame)?;
    Ok(())
}

/// Takes what is innermost.
#[tactic(auto, using(crate::proofs::Views::stack_push, crate::proofs::Views::stack_same))]
pub fn pop(stack: &mut Vec<Frame>) -> Option<Frame>
    ensures some { IfSome result (λ f. stack_of stack.old.items ≡ frame_of f ∷ stack_of stack.new.items) }
    ensures none { IfNone result (stack_of stack.old.items ≡ []) }
    ensures fewer { IfSome result (λ f. length stack.new.items + 1 ≡ length stack.old.items) }
    ensures empty { IfNone result (stack_of stack.new.items ≡ []) }
{
    stack.pop()
}

/// There is a phrase.
#[tactic(auto, using(crate::proofs::Views::some_views, crate::proofs::Views::no_views))]
pub fn is_some_item(ps: &Vec<Phrase>) -> bool
    ensures { result ≡ is_some_item (views ps.now.items) }
{
    !ps.is_empty()
}

/// A variable.
pub fn is_var(e: &Phrase) -> bool
    ensures { result ≡ is_var (view e.now) }
{
    matches!(e, Phrase::Var { .. })
}

/// A block of which nothing is read.
pub fn begun(alloc: Global, opener: Opener) -> Block
    ensures { frame_of (Frame.Block result) ≡ block (opener_of opener) true true [] [] }
{
    Block {
        opener,
        declares: true,
        states: true,
        declarations: Vec::new(alloc),
        phrases: Vec::new(alloc),
    }
}

/// A block begins.
pub fn open_block(alloc: Global, stack: &mut Vec<Frame>, opener: Opener) -> Result<(), StepError>
    ensures { Steps result stack.new.items (Some (opened (opener_of opener) (stack_of stack.old.items))) }
{
    push(stack, Frame::Block(begun(alloc, opener)))
}

/// Takes the block that is innermost.
pub fn pop_block(stack: &mut Vec<Frame>) -> Option<Block>
    ensures some { IfSome result (λ b. stack_of stack.old.items ≡ frame_of (Frame.Block b) ∷ stack_of stack.new.items) }
    ensures none { IfNone result (is_in_block (stack_of stack.old.items) ≡ false) }
{
    match pop(stack) {
        Some(Frame::Block(inner)) => Some(inner),
        _ => None,
    }
}

/// Takes the record that is innermost.
pub fn pop_fields(stack: &mut Vec<Frame>) -> Option<Fields>
    ensures some { IfSome result (λ r. stack_of stack.old.items ≡ frame_of (Frame.Fields r) ∷ stack_of stack.new.items) }
    ensures none { IfNone result (is_in_fields (stack_of stack.old.items) ≡ false) }
{
    match pop(stack) {
        Some(Frame::Fields(inner)) => Some(inner),
        _ => None,
    }
}

/// What is innermost, and what is open round it.
pub fn innermost(stack: &[Frame]) -> Option<(&Frame, &[Frame])>
    ensures some { IfSome result (λ s. stack_of stack.now ≡ frame_of s.0.now ∷ stack_of s.1.now) }
    ensures fewer { IfSome result (λ s. length s.1.now + 1 ≡ length stack.now) }
    ensures none { IfNone result (stack_of stack.now ≡ []) }
{
    let count = stack.len();
    if count == 0 {
        return None;
    }
    let last = count - 1;
    Some((&stack[last], &stack[..last]))
}

/// A statement may begin here.
pub fn may_state(stack: &[Frame]) -> bool
    ensures { result ≡ may_state (stack_of stack.now) }
{
    match innermost(stack) {
        Some((Frame::Block(inner), _)) => inner.states,
        _ => false,
    }
}

/// A procedure with a name may begin here.
pub fn in_block(stack: &[Frame]) -> bool
    ensures { result ≡ in_block (stack_of stack.now) }
{
    matches!(innermost(stack), Some((Frame::Block(_), _)))
}

/// A procedure that is a value may begin here.
pub fn may_value(stack: &[Frame]) -> bool
    ensures { result ≡ may_value (stack_of stack.now) }
{
    match innermost(stack) {
        Some((Frame::Block(inner), _)) => inner.states,
        _ => true,
    }
}

fn kind_by(in_pattern: bool) -> Kind
    ensures { kind_seen result ≡ kind_by in_pattern }
{
    if in_pattern {
        Kind::Pattern
    } else {
        Kind::Expression
    }
}

/// What may begin here, behind the operators that wait. There are at most as many of those as there are levels.
pub fn kind_of(stack: &[Frame]) -> Kind
    ensures { kind_seen result ≡ kind_of (stack_of stack.now) }
{
    let Some((frame, outer)) = innermost(stack) else {
        return Kind::Expression;
    };
    match frame {
        Frame::Left { .. } | Frame::Barred(_) | Frame::Hashed(_) => kind_of(outer),
        Frame::Fields(inner) => kind_by(inner.in_pattern),
        Frame::Listing(inner) => kind_by(inner.in_pattern),
        Frame::Key { in_pattern, .. } => kind_by(*in_pattern),
        Frame::Enclosing { in_pattern, .. } => kind_by(*in_pattern),
        Frame::Patterns { .. } | Frame::Catching { .. } => Kind::Pattern,
        Frame::Relating { .. } => Kind::Side,
        _ => Kind::Expression,
    }
}

/// It is a statement where one may stand, or an expression.
pub fn is_alive(ways: Ways, stack: &[Frame]) -> bool
    ensures { result ≡ is_alive ways.states ways.values (stack_of stack.now) }
{
    (may_state(stack) && ways.states) || ways.values
}

/// A phrase is whole, and with it what `.` and `@` wait for.
pub fn had(
    alloc: Global,
    stack: &mut Vec<Frame>,
    phrase: Phrase,
    ways: Ways,
) -> Result<(), StepError>
    ensures { Steps result stack.new.items (Some (had (view phrase) ways.states ways.values (stack_of stack.old.items))) }
{
    match pop(stack) {
        Some(Frame::Dotted(record)) => {
            let feature = Box::new(alloc, phrase)?;
            push_value(stack, Phrase::Select { record, feature })
        }
        Some(Frame::Accessing { at }) => {
            let cell = Box::new(alloc, phrase)?;
            push_value(stack, Phrase::Access { at, cell })
        }
        None => push(stack, Frame::Whole { phrase, ways }),
        Some(outer) => {
            push(stack, outer)?;
            push(stack, Frame::Whole { phrase, ways })
        }
    }
}

fn push_value(stack: &mut Vec<Frame>, phrase: Phrase) -> Result<(), StepError>
    ensures { Steps result stack.new.items (Some (whole (view phrase) false true ∷ stack_of stack.old.items)) }
{
    let ways = Ways {
        states: false,
        values: true,
    };
    push(stack, Frame::Whole { phrase, ways })
}

/// A phrase ends, if it may stand here.
pub fn ends(
    alloc: Global,
    stack: &mut Vec<Frame>,
    phrase: Phrase,
    ways: Ways,
) -> Result<(), StepError>
    ensures { Steps result stack.new.items (ends (view phrase) ways.states ways.values (stack_of stack.old.items)) }
{
    if !is_alive(ways, stack.as_slice()) {
        return Err(StepError::Refused);
    }
    had(alloc, stack, phrase, ways)
}

/// A value ends.
pub fn value(alloc: Global, stack: &mut Vec<Frame>, phrase: Phrase) -> Result<(), StepError>
    ensures { Steps result stack.new.items (value (view phrase) (stack_of stack.old.items)) }
{
    let ways = Ways {
        states: false,
        values: true,
    };
    had(alloc, stack, phrase, ways)
}
