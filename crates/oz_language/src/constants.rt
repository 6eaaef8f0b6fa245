//! What tells integers and literals apart.
ghost use Rattle.std.specs.Prelude.{◌≡◌};
ghost use Rattle.oz_language.specs.Constants.{literal_eq, constant_eq, same_arity};

use crate::{Constant, Literal};

/// Whether two literals are one.
pub fn literal_eq(left: Literal, right: Literal) -> bool
    ensures { result ≡ literal_eq left right }
{
    match (left, right) {
        (Literal::Atom(a), Literal::Atom(b)) => a == b,
        (Literal::True, Literal::True) => true,
        (Literal::False, Literal::False) => true,
        (Literal::Unit, Literal::Unit) => true,
        _ => false,
    }
}

/// Whether two integers or literals are one.
pub fn constant_eq(left: Constant, right: Constant) -> bool
    ensures { result ≡ constant_eq left right }
{
    match (left, right) {
        (Constant::Int(a), Constant::Int(b)) => a == b,
        (Constant::Literal(a), Constant::Literal(b)) => literal_eq(a, b),
        _ => false,
    }
}

/// Whether two lists of features are one arity.
pub fn same_arity(left: &[Constant], right: &[Constant]) -> bool
    ensures { result ≡ same_arity left.now right.now }
{
    left.len() == right.len() && left.iter().zip(right).all(|(f, g)| constant_eq(*f, *g))
}
