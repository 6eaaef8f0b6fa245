//! The sides of relations.
ghost use Rattle.std.specs.Prelude.{◌≡◌, ◌+◌, min, nat_lt};
ghost use Rattle.oz_language.specs.Grammar.{is_small, is_small_int, is_reference, is_product, is_side_term, is_side, terms_in, terms_limit};
ghost use Rattle.oz_syntax.specs.View.{view};

use oz_language::Operator;
use oz_syntax::Phrase;

/// An integer of a relation has at most this size.
const INTEGER_SIZE: u128 = 2147483648;

/// Both sides of a relation have together at most so many terms.
const TERMS_LIMIT: u8 = 64;

/// An integer that may stand in a relation.
pub fn is_small(value: i128) -> bool
    ensures { result ≡ is_small value }
{
    value.unsigned_abs() <= INTEGER_SIZE
}

/// It is one.
pub fn is_small_int(phrase: &Phrase) -> bool
    ensures { result ≡ is_small_int (view phrase.now) }
{
    match phrase {
        Phrase::Int { value, .. } => is_small(*value),
        _ => false,
    }
}

/// A variable, or what is selected from one.
pub fn is_reference(phrase: &Phrase) -> bool
    ensures { result ≡ is_reference (view phrase.now) }
{
    match phrase {
        Phrase::Var { .. } => true,
        Phrase::Select { record, .. } => is_reference(record),
        _ => false,
    }
}

fn is_product(left: &Phrase, right: &Phrase) -> bool
    ensures { result ≡ is_product (view left.now) (view right.now) }
{
    (is_small_int(left) && is_reference(right))
        || (is_reference(left) && (is_small_int(right) || is_reference(right)))
}

fn is_side_term(phrase: &Phrase) -> bool
    ensures { result ≡ is_side_term (view phrase.now) }
{
    match phrase {
        Phrase::Binary {
            operator: Operator::Times,
            left,
            right,
        } => is_product(left, right),
        _ => is_small_int(phrase) || is_reference(phrase),
    }
}

/// Terms with `+` and `-` between them.
pub fn is_side(phrase: &Phrase) -> bool
    ensures { result ≡ is_side (view phrase.now) }
{
    match phrase {
        Phrase::Binary {
            operator: Operator::Plus | Operator::Minus,
            left,
            right,
        } => is_side(left) && is_side_term(right),
        _ => is_side_term(phrase),
    }
}

/// How many terms a side has, up to the limit.
fn terms_in(phrase: &Phrase) -> u8
    ensures { result ≡ min (terms_in (view phrase.now)) terms_limit }
{
    match phrase {
        Phrase::Binary {
            operator: Operator::Plus | Operator::Minus,
            left,
            ..
        } => TERMS_LIMIT.min(terms_in(left) + 1),
        _ => 1,
    }
}

/// A side has room for another term on the other side.
pub fn has_room(left: &Phrase) -> bool
    ensures { result ≡ nat_lt (terms_in (view left.now)) terms_limit }
{
    terms_in(left) < TERMS_LIMIT
}

/// Two sides have room for another term.
pub fn have_room(left: &Phrase, right: &Phrase) -> bool
    ensures { result ≡ nat_lt (terms_in (view left.now) + terms_in (view right.now)) terms_limit }
{
    terms_in(left) + terms_in(right) < TERMS_LIMIT
}
