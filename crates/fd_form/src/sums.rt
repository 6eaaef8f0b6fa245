//! Relations between sums: each is the difference of its sides, compared to 0.
ghost use Rattle.std.specs.Prelude.{◌≡◌, ◌+ℤ◌, pos, [], ◌∷◌, true, false, not, option_map, IfOk};
ghost use Rattle.oz_language.specs.Grammar.{binary};
ghost use Rattle.oz_language.specs.Translation.{signed};
ghost use Rattle.oz_language.specs.declared.token.Operator.TheVariants as operator;
ghost use Rattle.oz_syntax.specs.View.{view};
ghost use Rattle.fd_form.specs.Parts.{both};
ghost use Rattle.fd_form.specs.Sums.{added, compared, difference, multiple, relation_of, side_of, sum, term_of};
ghost use Rattle.fd_form.specs.Steps.{coefficient_of, product};

use crate::vectors::place_of;
use fd_problems::{Item, Term};
use oz_base::Sequence;
use oz_language::{Comparison, Operator, Sign};
use oz_syntax::Phrase;
use std::alloc::{AllocError, Global};

/// A constant and terms, which are added up.
#[derive(Drop)]
pub struct Sum {
    pub constant: i64,
    pub terms: Sequence<Term>,
}

/// An integer, or its opposite. It refuses one that is too large for a relation.
fn signed(is_negative: bool, value: i128) -> Result<i64, AllocError>
    ensures { IfOk result (λ found. found ≡ signed is_negative value) }
{
    let Ok(value) = i64::try_from(value) else {
        return Err(AllocError);
    };
    if !is_negative {
        return Ok(value);
    }
    match value.checked_neg() {
        Some(opposite) => Ok(opposite),
        None => Err(AllocError),
    }
}

/// An integer, which is no term.
fn integer(alloc: Global, is_negative: bool, value: i128) -> Result<Sum, AllocError>
    ensures { IfOk result (λ found. found ≡ sum (signed is_negative value) []) }
{
    Ok(Sum {
        constant: signed(is_negative, value)?,
        terms: Sequence::new(alloc),
    })
}

/// One term alone.
fn one_term(alloc: Global, term: Term) -> Result<Sum, AllocError>
    ensures { IfOk result (λ found. found ≡ sum (pos 0) (term ∷ [])) }
{
    let mut terms = Sequence::new(alloc);
    terms.push(term)?;
    Ok(Sum { constant: 0, terms })
}

/// A multiple of a variable, if there is the variable.
fn multiple(
    alloc: Global,
    is_negative: bool,
    value: i128,
    place: Option<usize>,
) -> Result<Option<Sum>, AllocError>
    ensures { IfOk result (λ found. found ≡ multiple is_negative value place) }
{
    let Some(place) = place else {
        return Ok(None);
    };
    let coefficient = signed(is_negative, value)?;
    let term = one_term(alloc, Term::Multiple(coefficient, place))?;
    Ok(Some(term))
}

/// The product of two variables, if there are both.
fn product(
    alloc: Global,
    is_negative: bool,
    left: Option<usize>,
    right: Option<usize>,
) -> Result<Option<Sum>, AllocError>
    ensures { IfOk result (λ found. found ≡ product is_negative left right) }
{
    let Some(left) = left else {
        return Ok(None);
    };
    let Some(right) = right else {
        return Ok(None);
    };
    let coefficient = signed(is_negative, 1)?;
    let term = one_term(alloc, Term::Product(coefficient, left, right))?;
    Ok(Some(term))
}

/// The integer that a factor is, if it is one.
fn coefficient_of(factor: &Phrase) -> Option<i128>
    ensures { result ≡ coefficient_of (view factor.now) }
{
    match factor {
        Phrase::Int { value, .. } => Some(*value),
        _ => None,
    }
}

/// A product, of which one factor may be an integer.
#[tactic(auto, using(crate::proofs::SumLaws::term_times))]
fn multiplied(
    alloc: Global,
    variables: &[u32],
    is_negative: bool,
    left: &Phrase,
    right: &Phrase,
) -> Result<Option<Sum>, AllocError>
    ensures { IfOk result (λ found. found ≡ term_of variables.now is_negative (binary operator.Times (view left.now) (view right.now))) }
{
    if let Some(value) = coefficient_of(left) {
        return multiple(alloc, is_negative, value, place_of(variables, right));
    }
    if let Some(value) = coefficient_of(right) {
        return multiple(alloc, is_negative, value, place_of(variables, left));
    }
    product(
        alloc,
        is_negative,
        place_of(variables, left),
        place_of(variables, right),
    )
}

/// A term that is added, or taken away.
fn term_of(
    alloc: Global,
    variables: &[u32],
    is_negative: bool,
    term: &Phrase,
) -> Result<Option<Sum>, AllocError>
    ensures { IfOk result (λ found. found ≡ term_of variables.now is_negative (view term.now)) }
{
    match term {
        Phrase::Int { value, .. } => Ok(Some(integer(alloc, is_negative, *value)?)),
        Phrase::Binary {
            operator: Operator::Times,
            left,
            right,
        } => multiplied(alloc, variables, is_negative, left, right),
        _ => multiple(alloc, is_negative, 1, place_of(variables, term)),
    }
}

/// Two sums added up, if there are both. It refuses a constant that is too large for a relation.
fn added(left: Option<Sum>, right: Option<Sum>) -> Result<Option<Sum>, AllocError>
    ensures { IfOk result (λ found. found ≡ option_map added (both left right)) }
{
    let Some(mut total) = left else {
        return Ok(None);
    };
    let Some(more) = right else {
        return Ok(None);
    };
    let Some(constant) = total.constant.checked_add(more.constant) else {
        return Err(AllocError);
    };
    total.terms.append(more.terms.into_vec())?;
    Ok(Some(Sum {
        constant,
        terms: total.terms,
    }))
}

/// A side that is added, or taken away.
fn side_of(
    alloc: Global,
    variables: &[u32],
    is_negative: bool,
    side: &Phrase,
) -> Result<Option<Sum>, AllocError>
    ensures { IfOk result (λ found. found ≡ side_of variables.now is_negative (view side.now)) }
{
    match side {
        Phrase::Binary {
            operator: Operator::Plus,
            left,
            right,
        } => added(
            side_of(alloc, variables, is_negative, left)?,
            term_of(alloc, variables, is_negative, right)?,
        ),
        Phrase::Binary {
            operator: Operator::Minus,
            left,
            right,
        } => added(
            side_of(alloc, variables, is_negative, left)?,
            term_of(alloc, variables, !is_negative, right)?,
        ),
        _ => term_of(alloc, variables, is_negative, side),
    }
}

/// One side less the other.
fn difference(
    alloc: Global,
    variables: &[u32],
    taken: &Phrase,
    away: &Phrase,
) -> Result<Option<Sum>, AllocError>
    ensures { IfOk result (λ found. found ≡ difference variables.now (view taken.now) (view away.now)) }
{
    added(
        side_of(alloc, variables, false, taken)?,
        side_of(alloc, variables, true, away)?,
    )
}

/// The one item that says how a sum stands to 0.
fn compared(
    alloc: Global,
    sign: Sign,
    total: Option<Sum>,
) -> Result<Option<Sequence<Item>>, AllocError>
    ensures { IfOk result (λ found. found ≡ compared sign total) }
{
    let Some(total) = total else {
        return Ok(None);
    };
    let mut items = Sequence::new(alloc);
    items.push(Item::Compares(sign, total.constant, total.terms))?;
    Ok(Some(items))
}

/// What a relation states. What is said to be above is taken from the other side, so that the difference is to be below 0.
pub fn relation_of(
    alloc: Global,
    variables: &[u32],
    comparison: Comparison,
    left: &Phrase,
    right: &Phrase,
) -> Result<Option<Sequence<Item>>, AllocError>
    ensures { IfOk result (λ found. found ≡ relation_of variables.now comparison (view left.now) (view right.now)) }
{
    let (sign, taken, away) = match comparison {
        Comparison::Equal => (Sign::Zero, left, right),
        Comparison::Unequal => (Sign::NotZero, left, right),
        Comparison::Below => (Sign::Negative, left, right),
        Comparison::NotAbove => (Sign::NotPositive, left, right),
        Comparison::Above => (Sign::Negative, right, left),
        Comparison::NotBelow => (Sign::NotPositive, right, left),
    };
    compared(alloc, sign, difference(alloc, variables, taken, away)?)
}
