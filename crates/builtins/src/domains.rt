//! Finite domains (CTM 12.3.1, 12.4; Schulte 2): domains that are told, relations that are posted, and distributors.
ghost use Rattle.std.specs.Prelude.{◌≡◌, ◌∷◌, [], ℤ, List, Some, IfOk};
ghost use Rattle.oz_base.specs.declared.names.Ident.{Ident};
ghost use Rattle.oz_base.specs.declared.relation.Relation.TheVariants.{Distinct};
ghost use Rattle.oz_semantics.specs.Answers as answers;
ghost use Rattle.oz_domains.specs.Domains.{whole};
ghost use Rattle.oz_semantics.specs.Inputs.{Known, both};
ghost use Rattle.oz_semantics.specs.Vectors.{vector};
ghost use Rattle.oz_semantics.specs.Constraints.{bounds};
ghost use Rattle.oz_semantics.specs.Distributors.{distribution};
ghost use Rattle.oz_semantics.specs.Builtins.{interval_news, of_input, confines, posts, distributes};
ghost use Rattle.fd_inputs.specs.Answers.{bounds_of, distribution_of};
ghost use Rattle.builtins.specs.Answers.{IsAnswer};
ghost use Rattle.builtins.specs.Choices.{part_in, part_of};
ghost use Rattle.builtins.specs.Exact.{answer_of, erased};

use crate::answer::{Act, Answer, Posting};
use crate::given::single;
use fd_inputs::{
    Distribution, Input, Range, WHOLE, both, bounds, distribute, interval_news, interval_of,
    refusal_of, vector,
};
use oz_base::{Ident, Interval, Relation, Sequence, Shared};
use oz_semantics::{RaiseKind, Tell};
use std::alloc::{AllocError, Global};
use term_store::Store;

/// Each of these variables is an integer of the interval.
fn confined(
    alloc: Global,
    store: &Store,
    variables: &[Ident],
    interval: Interval,
) -> Result<Answer, AllocError>
    ensures { IfOk result (λ a. answer_of a ≡ answers.Acts (answers.Confines (interval_news store.now variables.now interval))) }
{
    let tells = interval_news(alloc, store, variables, interval)?;
    Ok(Answer::Acts(Act::Confines(Sequence::from_vec(tells))))
}

/// Each of these variables is an integer within the bounds.
fn confines(
    alloc: Global,
    store: &Store,
    variables: &[Ident],
    bounds: Range,
) -> Result<Answer, AllocError>
    ensures { IfOk result (λ a. answer_of a ≡ erased (confines store.now variables.now (bounds_of bounds))) }
{
    match refusal_of(bounds.low, bounds.high) {
        Some(kind) => Ok(Answer::RaisesKind(kind)),
        None => confined(alloc, store, variables, interval_of(bounds)),
    }
}

/// `X::D`
pub fn bound(
    alloc: Global,
    store: &Store,
    variable: &Ident,
    description: &Ident,
) -> Result<Answer, AllocError>
    ensures { IfOk result (λ a. answer_of a ≡ erased (of_input (bounds store.now description.now) (confines store.now (variable.now ∷ [])))) }
{
    match bounds(alloc, store, description)? {
        Input::Known(bounds) => {
            let variables = single(alloc, variable)?;
            confines(alloc, store, variables.as_slice(), bounds)
        }
        Input::Unknown(_) => Ok(Answer::Rests),
        Input::OtherKind => Ok(Answer::RaisesKind(RaiseKind::BadKind)),
    }
}

/// `V:::D`: each element of a vector.
pub fn bound_each(
    alloc: Global,
    store: &Store,
    elements: &Ident,
    description: &Ident,
) -> Result<Answer, AllocError>
    ensures { IfOk result (λ a. answer_of a ≡ erased (of_input (both (vector store.now elements.now) (bounds store.now description.now)) (λ (i : List Ident × (ℤ × ℤ)). confines store.now i.0 i.1))) }
{
    let variables = vector(alloc, store, elements)?;
    let bounds = bounds(alloc, store, description)?;
    match both(variables, bounds) {
        Input::Known((variables, bounds)) => {
            confines(alloc, store, variables.as_slice(), bounds)
        }
        Input::Unknown(_) => Ok(Answer::Rests),
        Input::OtherKind => Ok(Answer::RaisesKind(RaiseKind::BadKind)),
    }
}

/// A relation between these variables is posted, each of which has a domain from then on.
fn posted(
    alloc: Global,
    store: &Store,
    relation: Relation,
    variables: Vec<Ident>,
) -> Result<Answer, AllocError>
    ensures { IfOk result (λ a. answer_of a ≡ posts store.now relation variables.items) }
{
    let tells = interval_news(alloc, store, variables.as_slice(), WHOLE)?;
    let posting = Posting {
        tells: Sequence::from_vec(tells),
        relation,
        variables: Sequence::from_vec(variables),
    };
    Ok(Answer::Acts(Act::Posts(Shared::new(alloc, posting)?)))
}

/// A relation between these variables is posted, each of which has a domain from then on. It refuses where there is no memory.
#[tactic(auto, using(crate::proofs::AnswerLaws::is_answer))]
pub fn posts(
    alloc: Global,
    store: &Store,
    relation: Relation,
    variables: Vec<Ident>,
) -> Result<Answer, AllocError>
    ensures { IfOk result (IsAnswer (posts store.now relation variables.items)) }
{
    posted(alloc, store, relation, variables)
}

/// `{FD.distinct V}`
pub fn distinct(alloc: Global, store: &Store, elements: &Ident) -> Result<Answer, AllocError>
    ensures { IfOk result (λ a. answer_of a ≡ erased (of_input (vector store.now elements.now) (posts store.now Distinct))) }
{
    match vector(alloc, store, elements)? {
        Input::Known(variables) => posted(alloc, store, Relation::Distinct, variables),
        Input::Unknown(_) => Ok(Answer::Rests),
        Input::OtherKind => Ok(Answer::RaisesKind(RaiseKind::BadKind)),
    }
}

/// These variables are told all domain values, and the distributor starts anew.
fn widens(alloc: Global, store: &Store, variables: &[Ident]) -> Result<Answer, AllocError>
    ensures { IfOk result (λ a. answer_of a ≡ answers.Widens (interval_news store.now variables.now whole)) }
{
    let tells = interval_news(alloc, store, variables, WHOLE)?;
    Ok(Answer::Widens(Sequence::from_vec(tells)))
}

/// What a distributor does. Its alternatives wait for a commitment.
fn distributes(
    alloc: Global,
    store: &Store,
    distribution: &Distribution,
) -> Result<Answer, AllocError>
    ensures { IfOk result (λ a. answer_of a ≡ erased (distributes store.now (distribution_of distribution.now))) }
{
    match distribution {
        Distribution::Widens(variables) => widens(alloc, store, variables.as_slice()),
        Distribution::Finished => Ok(Answer::Acts(Act::Passes)),
        Distribution::Splits { .. } => Ok(Answer::Rests),
    }
}

/// `{FD.distribute R V}`
pub fn distributor(
    alloc: Global,
    store: &Store,
    rule: &Ident,
    elements: &Ident,
) -> Result<Answer, AllocError>
    ensures { IfOk result (λ a. answer_of a ≡ erased (of_input (distribution store.now rule.now elements.now) (distributes store.now))) }
{
    match distribute(alloc, store, rule, elements)? {
        Input::Known(distribution) => distributes(alloc, store, &distribution),
        Input::Unknown(_) => Ok(Answer::Rests),
        Input::OtherKind => Ok(Answer::RaisesKind(RaiseKind::BadKind)),
    }
}

/// The part of a domain that goes with an index.
fn part_in(distribution: Distribution, index: u64) -> Option<Tell>
    ensures { result ≡ part_in index (Known (distribution_of distribution)) }
{
    match distribution {
        Distribution::Splits { first, second, .. } => {
            if index == 1 {
                Some(first)
            } else {
                Some(second)
            }
        }
        Distribution::Widens(_) | Distribution::Finished => None,
    }
}

/// The part of a domain that is told with the first alternative of a distributor, where the index is 1, and else that of the second. None
/// exactly where it offers none. It refuses where there is no memory.
pub fn part_of(
    alloc: Global,
    store: &Store,
    index: u64,
    rule: &Ident,
    elements: &Ident,
) -> Result<Option<Tell>, AllocError>
    ensures { IfOk result (λ part. part ≡ part_of store.now index rule.now elements.now) }
{
    match distribute(alloc, store, rule, elements)? {
        Input::Known(distribution) => Ok(part_in(distribution, index)),
        Input::Unknown(_) | Input::OtherKind => Ok(None),
    }
}
