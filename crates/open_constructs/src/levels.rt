//! How tightly phrases bind, and which operators may stand where.
ghost use Rattle.std.specs.Prelude.{◌≡◌};
ghost use Rattle.oz_language.specs.Grammar.{level_of, left_level};
ghost use Rattle.oz_syntax.specs.View.{view};
ghost use Rattle.reader_law.specs.Machine.{binds, right_level, allows};
ghost use Rattle.open_constructs.specs.View.{stack_of};

use crate::frame::Frame;
use crate::stack::innermost;
use oz_language::{Connective, Operator};
use oz_syntax::Phrase;

/// The level of comparisons, which do not chain.
pub const COMPARISONS: u8 = 2;
/// The level of `|`.
pub const BARS: u8 = 3;
/// The level of `#`.
pub const HASHES: u8 = 4;
/// The level of `.`, and of what stands before `::` and `:::`.
pub const SELECTIONS: u8 = 7;
/// What needs no parentheses anywhere.
pub const TIGHTEST: u8 = 8;

/// How tightly an operator binds.
pub fn level_of(operator: Operator) -> u8
    ensures { result ≡ level_of operator }
{
    match operator {
        Operator::OrElse => 0,
        Operator::AndThen => 1,
        Operator::Plus | Operator::Minus => 5,
        Operator::Times | Operator::Div | Operator::Mod => 6,
        _ => COMPARISONS,
    }
}

/// How tightly what stands on the left of an operator has to bind.
pub fn left_level(operator: Operator) -> u8
    ensures { result ≡ left_level operator }
{
    let level = level_of(operator);
    if level == COMPARISONS { BARS } else { level }
}

/// How tightly a phrase binds.
pub fn binds(phrase: &Phrase) -> u8
    ensures { result ≡ binds (view phrase.now) }
{
    match phrase {
        Phrase::Binary { operator, .. } => level_of(*operator),
        Phrase::Bars { .. } => BARS,
        Phrase::Hashes { .. } => HASHES,
        _ => TIGHTEST,
    }
}

/// How tightly the right side of a statement has to bind.
fn right_level(connective: Connective) -> u8
    ensures { result ≡ right_level connective }
{
    match connective {
        Connective::Bounds | Connective::BoundsEach => HASHES,
        Connective::Equates | Connective::Assigns => 0,
    }
}

/// An operator of this level may stand in what is open here.
pub fn allows(level: u8, stack: &[Frame]) -> bool
    ensures { result ≡ allows level (stack_of stack.now) }
{
    match innermost(stack) {
        Some((Frame::Block(inner), _)) => inner.states,
        Some((Frame::Connecting { connective, .. }, _)) => right_level(*connective) <= level,
        _ => true,
    }
}
