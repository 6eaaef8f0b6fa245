//! The sides of relations of finite domains: their terms, and what is posted.
ghost use Rattle.std.specs.Prelude.{◌≡◌, suc, ◌+ℤ◌, ◌++◌, [], ◌∷◌, not, true, false, OnOk, IfOk};
ghost use Rattle.oz_language.specs.Grammar.{binary};
ghost use Rattle.oz_language.specs.Kernels.{none, just, ◌⨾◌};
ghost use Rattle.oz_language.specs.Kernels as k;
ghost use Rattle.oz_language.specs.Translation.{behind_factor, behind_side, signed, linear, terms_of, constant_of, products_of, posted, between};
ghost use Rattle.oz_language.specs.declared.token.Operator.TheVariants as operator;
ghost use Rattle.oz_syntax.specs.View.{view};
ghost use Rattle.kernel_output.specs.Outputs.{with_all};
ghost use Rattle.kernel_relations.specs.Relations.{integer_of, factor_name, behind_factors, product_term, product_made, plain_terms};

use kernel_output::{Numbers, Output, variable_of};
use oz_base::Sequence;
use oz_language::{Comparison, Identifier, LinearTerm, Operator, Sign};
use oz_syntax::Phrase;
use std::alloc::{AllocError, Global};

/// The integer that a factor is, if it is one.
fn integer_of(factor: &Phrase) -> Option<i128>
    ensures { result ≡ integer_of (view factor.now) }
{
    match factor {
        Phrase::Int { value, .. } => Some(*value),
        _ => None,
    }
}

/// The numbers behind the next one. It refuses where they are used up.
fn behind_next(names: Numbers) -> Result<Numbers, AllocError>
    ensures { IfOk result (λ behind. behind.next ≡ suc names.next) }
{
    match names.next.checked_add(1) {
        Some(next) => Ok(Numbers { next }),
        None => Err(AllocError),
    }
}

/// The number behind that of a factor: only a selection has an identifier of its own.
pub fn behind_factor(names: Numbers, factor: &Phrase) -> Result<Numbers, AllocError>
    ensures { IfOk result (λ behind. behind.next ≡ behind_factor names.next (view factor.now)) }
{
    match factor {
        Phrase::Select { .. } => behind_next(names),
        _ => Ok(names),
    }
}

/// The number behind those of two factors, which is that of their product.
fn behind_factors(names: Numbers, left: &Phrase, right: &Phrase) -> Result<Numbers, AllocError>
    ensures { IfOk result (λ behind. behind.next ≡ behind_factors names.next (view left.now) (view right.now)) }
{
    let middle = behind_factor(names, left)?;
    behind_factor(middle, right)
}

/// The number behind those of a product.
#[tactic(auto, using(crate::proofs::RelationLaws::behind_times))]
fn behind_product(names: Numbers, left: &Phrase, right: &Phrase) -> Result<Numbers, AllocError>
    ensures { IfOk result (λ behind. behind.next ≡ behind_side names.next (binary operator.Times (view left.now) (view right.now))) }
{
    if integer_of(left).is_some() {
        return behind_factor(names, right);
    }
    if integer_of(right).is_some() {
        return behind_factor(names, left);
    }
    behind_next(behind_factors(names, left, right)?)
}

/// The number behind those of a side.
pub fn behind_side(names: Numbers, side: &Phrase) -> Result<Numbers, AllocError>
    ensures { IfOk result (λ behind. behind.next ≡ behind_side names.next (view side.now)) }
{
    match side {
        Phrase::Binary {
            operator,
            left,
            right,
        } => match operator {
            Operator::Plus => behind_side(behind_side(names, left)?, right),
            Operator::Minus => behind_side(behind_side(names, left)?, right),
            Operator::Times => behind_product(names, left, right),
            _ => Ok(names),
        },
        _ => behind_factor(names, side),
    }
}

/// An integer, or its opposite. It refuses one that is too large for a relation.
fn signed(is_negative: bool, value: i128) -> Result<i64, AllocError>
    ensures { IfOk result (λ coefficient. coefficient ≡ signed is_negative value) }
{
    let Ok(value) = i64::try_from(value) else {
        return Err(AllocError);
    };
    if !is_negative {
        return Ok(value);
    }
    match value.checked_neg() {
        Some(opposite) => Ok(opposite),
        None => Err(AllocError),
    }
}

/// A term, taken or taken away.
fn linear(is_negative: bool, value: i128, variable: Identifier) -> Result<LinearTerm, AllocError>
    ensures { IfOk result (λ term. term ≡ linear is_negative value variable) }
{
    Ok(LinearTerm {
        coefficient: signed(is_negative, value)?,
        variable,
    })
}

/// The identifier of a factor.
fn factor_name(names: Numbers, factor: &Phrase) -> Identifier
    ensures { result ≡ factor_name names.next (view factor.now) }
{
    match variable_of(factor) {
        Some(name) => name,
        None => Identifier::Fresh(names.next),
    }
}

/// The term that a product is.
fn product_term(
    is_negative: bool,
    names: Numbers,
    left: &Phrase,
    right: &Phrase,
) -> Result<LinearTerm, AllocError>
    ensures { IfOk result (λ term. term ≡ product_term is_negative names.next (integer_of (view left.now)) (integer_of (view right.now)) (view left.now) (view right.now)) }
{
    if let Some(coefficient) = integer_of(left) {
        return linear(is_negative, coefficient, factor_name(names, right));
    }
    if let Some(coefficient) = integer_of(right) {
        return linear(is_negative, coefficient, factor_name(names, left));
    }
    let product = behind_factors(names, left, right)?;
    linear(is_negative, 1, Identifier::Fresh(product.next))
}

/// Adds the term of a part that is no operation. An integer is no term.
fn push_plain(
    terms: &mut Sequence<LinearTerm>,
    is_negative: bool,
    names: Numbers,
    part: &Phrase,
) -> Result<(), AllocError>
    ensures { OnOk result (terms.new ≡ terms.old ++ plain_terms is_negative names.next (integer_of (view part.now)) (view part.now)) }
{
    match integer_of(part) {
        Some(_) => Ok(()),
        None => terms.push(linear(is_negative, 1, factor_name(names, part))?),
    }
}

/// Adds the term of a product.
#[tactic(auto, using(crate::proofs::RelationLaws::terms_times))]
fn push_product(
    terms: &mut Sequence<LinearTerm>,
    is_negative: bool,
    names: Numbers,
    left: &Phrase,
    right: &Phrase,
) -> Result<(), AllocError>
    ensures { OnOk result (terms.new ≡ terms.old ++ terms_of is_negative names.next (binary operator.Times (view left.now) (view right.now))) }
{
    let term = product_term(is_negative, names, left, right)?;
    terms.push(term)?;
    Ok(())
}

/// Adds the terms of a side, or of what is taken away, with these identifiers.
fn push_terms(
    terms: &mut Sequence<LinearTerm>,
    is_negative: bool,
    names: Numbers,
    side: &Phrase,
) -> Result<(), AllocError>
    ensures { OnOk result (terms.new ≡ terms.old ++ terms_of is_negative names.next (view side.now)) }
{
    match side {
        Phrase::Binary {
            operator,
            left,
            right,
        } => match operator {
            Operator::Plus => {
                push_terms(terms, is_negative, names, left)?;
                push_terms(terms, is_negative, behind_side(names, left)?, right)
            }
            Operator::Minus => {
                push_terms(terms, is_negative, names, left)?;
                push_terms(terms, !is_negative, behind_side(names, left)?, right)
            }
            Operator::Times => push_product(terms, is_negative, names, left, right),
            _ => push_plain(terms, is_negative, names, side),
        },
        _ => push_plain(terms, is_negative, names, side),
    }
}

/// The sum of two constants. It refuses one that is too large for a relation.
fn sum(left: i64, right: i64) -> Result<i64, AllocError>
    ensures { IfOk result (λ total. total ≡ left +ℤ right) }
{
    match left.checked_add(right) {
        Some(total) => Ok(total),
        None => Err(AllocError),
    }
}

/// The integers of a side, or of what is taken away.
fn constant_of(is_negative: bool, side: &Phrase) -> Result<i64, AllocError>
    ensures { IfOk result (λ total. total ≡ constant_of is_negative (view side.now)) }
{
    match side {
        Phrase::Binary {
            operator,
            left,
            right,
        } => match operator {
            Operator::Plus => sum(
                constant_of(is_negative, left)?,
                constant_of(is_negative, right)?,
            ),
            Operator::Minus => sum(
                constant_of(is_negative, left)?,
                constant_of(!is_negative, right)?,
            ),
            _ => Ok(0),
        },
        Phrase::Int { value, .. } => signed(is_negative, *value),
        _ => Ok(0),
    }
}

/// Writes nothing.
#[tactic(auto, using(kernel_output::proofs::Writing::with_nothing))]
fn no_product(output: &mut Output) -> Result<(), AllocError>
    ensures { OnOk result (output.new ≡ with_all output.old none) }
{
    Ok(())
}

/// Writes the statement of a product, unless one of its factors is an integer.
fn factors_posted(
    output: &mut Output,
    names: Numbers,
    left: &Phrase,
    right: &Phrase,
) -> Result<(), AllocError>
    ensures { OnOk result (output.new ≡ with_all output.old (product_made names.next (integer_of (view left.now)) (integer_of (view right.now)) (view left.now) (view right.now))) }
{
    if integer_of(left).is_some() {
        return no_product(output);
    }
    if integer_of(right).is_some() {
        return no_product(output);
    }
    let middle = behind_factor(names, left)?;
    let last = behind_factor(middle, right)?;
    output.post_times(
        factor_name(names, left),
        factor_name(middle, right),
        Identifier::Fresh(last.next),
    )
}

/// Does so, as for a side.
#[tactic(auto, using(crate::proofs::RelationLaws::products_times))]
fn product(
    output: &mut Output,
    names: Numbers,
    left: &Phrase,
    right: &Phrase,
) -> Result<(), AllocError>
    ensures { OnOk result (output.new ≡ with_all output.old (products_of names.next (binary operator.Times (view left.now) (view right.now)))) }
{
    factors_posted(output, names, left, right)?;
    Ok(())
}

/// Writes a statement for each product of a side.
fn products(output: &mut Output, names: Numbers, side: &Phrase) -> Result<(), AllocError>
    ensures { OnOk result (output.new ≡ with_all output.old (products_of names.next (view side.now))) }
{
    match side {
        Phrase::Binary {
            operator,
            left,
            right,
        } => match operator {
            Operator::Plus => {
                products(output, names, left)?;
                products(output, behind_side(names, left)?, right)?;
                Ok(())
            }
            Operator::Minus => {
                products(output, names, left)?;
                products(output, behind_side(names, left)?, right)?;
                Ok(())
            }
            Operator::Times => product(output, names, left, right),
            _ => no_product(output),
        },
        _ => no_product(output),
    }
}

/// A side of a relation, and the numbers of its identifiers.
#[derive(Clone, Copy)]
struct Side<'a> {
    names: Numbers,
    phrase: &'a Phrase,
}

/// Posts how one side less the other stands to 0.
fn post_difference(
    alloc: Global,
    output: &mut Output,
    sign: Sign,
    taken: Side<'_>,
    away: Side<'_>,
) -> Result<(), AllocError>
    ensures { OnOk result (output.new ≡ with_all output.old (just (k.post sign
        (constant_of false (view taken.entry.phrase.now) +ℤ constant_of true (view away.entry.phrase.now))
        (terms_of false taken.entry.names.next (view taken.entry.phrase.now) ++ terms_of true away.entry.names.next (view away.entry.phrase.now))))) }
{
    let constant = sum(
        constant_of(false, taken.phrase)?,
        constant_of(true, away.phrase)?,
    )?;
    let mut terms = Sequence::new(alloc);
    push_terms(&mut terms, false, taken.names, taken.phrase)?;
    push_terms(&mut terms, true, away.names, away.phrase)?;
    output.post(sign, constant, terms)
}

/// Posts how two sides compare. What is said to be above is taken from the other side, so that the difference is to be below 0.
fn post(
    alloc: Global,
    output: &mut Output,
    comparison: Comparison,
    names: Numbers,
    left: &Phrase,
    right: &Phrase,
) -> Result<(), AllocError>
    ensures { OnOk result (output.new ≡ with_all output.old (just (posted comparison names.next (view left.now) (view right.now)))) }
{
    let first = Side {
        names,
        phrase: left,
    };
    let second = Side {
        names: behind_side(names, left)?,
        phrase: right,
    };
    match comparison {
        Comparison::Equal => post_difference(alloc, output, Sign::Zero, first, second),
        Comparison::Unequal => post_difference(alloc, output, Sign::NotZero, first, second),
        Comparison::Below => post_difference(alloc, output, Sign::Negative, first, second),
        Comparison::NotAbove => post_difference(alloc, output, Sign::NotPositive, first, second),
        Comparison::Above => post_difference(alloc, output, Sign::Negative, second, first),
        Comparison::NotBelow => post_difference(alloc, output, Sign::NotPositive, second, first),
    }
}

/// Writes a statement for each product of a relation, and posts the relation. Its identifiers have the next numbers.
#[tactic(auto, using(crate::proofs::RelationLaws::relation_written))]
pub fn relation(
    alloc: Global,
    output: &mut Output,
    comparison: Comparison,
    names: Numbers,
    left: &Phrase,
    right: &Phrase,
) -> Result<(), AllocError>
    ensures { OnOk result (output.new ≡ with_all output.old ((products_of names.next (view left.now) ⨾ products_of (behind_side names.next (view left.now)) (view right.now)) ⨾ just (posted comparison names.next (view left.now) (view right.now)))) }
{
    products(output, names, left)?;
    products(output, behind_side(names, left)?, right)?;
    post(alloc, output, comparison, names, left, right)?;
    Ok(())
}

/// The identifiers whose numbers are from the first on and before those behind.
pub fn between(
    alloc: Global,
    first: Numbers,
    behind: Numbers,
) -> Result<Sequence<Identifier>, AllocError>
    ensures { IfOk result (λ names. names ≡ between first.next behind.next) }
{
    let mut names = Sequence::new(alloc);
    'numbers: for number in first.next..behind.next {
        names.push(Identifier::Fresh(number))?;
    }
    Ok(names)
}
