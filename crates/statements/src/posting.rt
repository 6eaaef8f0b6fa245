//! Relations that are posted (CTM 12.3.1; Schulte 2).
ghost use Rattle.std.specs.Prelude.{◌≡◌, ◌∷◌, [], map, IfOk};
ghost use Rattle.environments.specs.Environments.{bound};
ghost use Rattle.oz_base.specs.declared.relation.Relation.TheVariants.{Times};
ghost use Rattle.oz_language.specs.declared.kernel.LinearTerm.{LinearTerm};
ghost use Rattle.oz_semantics.specs.Constraints.{sum_relation, relation_of};
ghost use Rattle.oz_semantics.specs.Builtins.{posts};
ghost use Rattle.builtins.specs.Answers.{IsAnswer};

use crate::variables::{all_bound, bound};
use builtins::{Answer, posts};
use environments::Environment;
use oz_base::{Ident, Linear, Relation, Sequence};
use oz_language::{Identifier, LinearTerm, Sign};
use std::alloc::{AllocError, Global};
use term_store::Store;

/// What is said of a sum.
fn sum_relation(sign: Sign, sum: Linear) -> Relation
    ensures { result ≡ sum_relation sign sum.constant sum.coefficients }
{
    match sign {
        Sign::NotPositive => Relation::Le(sum),
        Sign::Negative => Relation::Lt(sum),
        Sign::Zero => Relation::Eq(sum),
        Sign::NotZero => Relation::Ne(sum),
    }
}

/// The coefficients of terms.
fn coefficients_of(alloc: Global, terms: &[LinearTerm]) -> Result<Vec<i64>, AllocError>
    ensures { IfOk result (λ coefficients. coefficients.items ≡ map (λ (t : LinearTerm). t.coefficient) terms.now) }
{
    let mut coefficients = Vec::with_capacity(alloc, terms.len())?;
    for term in terms {
        coefficients.push(term.coefficient)?;
    }
    Ok(coefficients)
}

/// The relation that is said of terms.
fn relation_of(
    alloc: Global,
    sign: Sign,
    constant: i64,
    terms: &[LinearTerm],
) -> Result<Relation, AllocError>
    ensures { IfOk result (λ relation. relation ≡ relation_of sign constant terms.now) }
{
    let coefficients = coefficients_of(alloc, terms)?;
    let sum = Linear {
        constant,
        coefficients: Sequence::from_vec(coefficients),
    };
    Ok(sum_relation(sign, sum))
}

/// The variables of terms.
fn variables_of(
    alloc: Global,
    environment: &Environment,
    terms: &[LinearTerm],
) -> Result<Vec<Ident>, AllocError>
    ensures { IfOk result (λ variables. variables.items ≡ map (λ (t : LinearTerm). bound environment.now t.variable) terms.now) }
{
    let mut variables = Vec::with_capacity(alloc, terms.len())?;
    for term in terms {
        variables.push(bound(alloc, environment, term.variable)?)?;
    }
    Ok(variables)
}

/// `post(S C A*X ..)`
pub fn posts_sum(
    alloc: Global,
    store: &Store,
    environment: &Environment,
    sign: Sign,
    constant: i64,
    terms: &[LinearTerm],
) -> Result<Answer, AllocError>
    ensures { IfOk result (IsAnswer (posts store.now (relation_of sign constant terms.now) (map (λ (t : LinearTerm). bound environment.now t.variable) terms.now))) }
{
    let relation = relation_of(alloc, sign, constant, terms)?;
    let variables = variables_of(alloc, environment, terms)?;
    posts(alloc, store, relation, variables)
}

/// `post(times X Y Z)`
pub fn posts_times(
    alloc: Global,
    store: &Store,
    environment: &Environment,
    left: Identifier,
    right: Identifier,
    product: Identifier,
) -> Result<Answer, AllocError>
    ensures { IfOk result (IsAnswer (posts store.now Times (map (bound environment.now) (left ∷ right ∷ product ∷ [])))) }
{
    let variables = all_bound(alloc, environment, &[left, right, product])?;
    posts(alloc, store, Relation::Times, variables)
}
