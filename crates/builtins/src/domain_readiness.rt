//! Whether calls of the built-ins of finite domains can step: they wait for their inputs, and build no answer.
ghost use Rattle.std.specs.Prelude.{◌≡◌, IfOk, option_map};
ghost use Rattle.std.specs.Vec.{vec_items};
ghost use Rattle.oz_semantics.specs.Store.{View};
ghost use Rattle.oz_semantics.specs.Inputs as inputs;
ghost use Rattle.oz_semantics.specs.Inputs.{Known, both};
ghost use Rattle.oz_semantics.specs.Vectors.{vector};
ghost use Rattle.oz_semantics.specs.Constraints.{bounds};
ghost use Rattle.oz_semantics.specs.Distributors.{Distribution, distribution};
ghost use Rattle.fd_inputs.specs.Answers.{offered_in};
ghost use Rattle.builtins.specs.Answers.{IsReady};
ghost use Rattle.builtins.specs.Looks.{awaited_by, input_ready, distributing};

use crate::answer::Readiness;
use crate::readiness::ready_by;
use fd_inputs::{Input, both, bounds, distributor_waits, vector};
use oz_base::{Ident, Sequence};
use std::alloc::{AllocError, Global};
use term_store::Store;

/// The variable that an input waits for.
fn awaited_by<A: Drop>(input: Input<A>) -> Option<Ident>
    ensures { result ≡ awaited_by input }
{
    match input {
        Input::Unknown(variable) => Some(variable),
        Input::Known(_) | Input::OtherKind => None,
    }
}

/// `X::D`
pub fn ready_bound(
    alloc: Global,
    store: &Store,
    description: &Ident,
) -> Result<Readiness, AllocError>
    ensures { IfOk result (IsReady store.now (input_ready (bounds store.now description.now))) }
{
    let awaited = awaited_by(bounds(alloc, store, description)?);
    ready_by(alloc, awaited.as_ref())
}

/// `V:::D`
pub fn ready_bound_each(
    alloc: Global,
    store: &Store,
    elements: &Ident,
    description: &Ident,
) -> Result<Readiness, AllocError>
    ensures { IfOk result (IsReady store.now (input_ready (both (vector store.now elements.now) (bounds store.now description.now)))) }
{
    let variables = vector(alloc, store, elements)?;
    let bounds = bounds(alloc, store, description)?;
    let awaited = awaited_by(both(variables, bounds));
    ready_by(alloc, awaited.as_ref())
}

/// `{FD.distinct V}`
pub fn ready_distinct(
    alloc: Global,
    store: &Store,
    elements: &Ident,
) -> Result<Readiness, AllocError>
    ensures { IfOk result (IsReady store.now (input_ready (vector store.now elements.now))) }
{
    let awaited = awaited_by(vector(alloc, store, elements)?);
    ready_by(alloc, awaited.as_ref())
}

/// A distributor offers the two parts of a domain, and waits for other elements as well.
fn distributing(waits: Option<Vec<Ident>>) -> Readiness
    ensures { (view : View) (i : inputs.Input Distribution) → Known (option_map vec_items waits) ≡ offered_in i → IsReady view (distributing i) result }
{
    match waits {
        None => Readiness::Steps,
        Some(waits) => Readiness::Offers {
            count: 2,
            waits: Sequence::from_vec(waits),
        },
    }
}

/// `{FD.distribute R V}`
pub fn ready_distributor(
    alloc: Global,
    store: &Store,
    rule: &Ident,
    elements: &Ident,
) -> Result<Readiness, AllocError>
    ensures { IfOk result (IsReady store.now (distributing (distribution store.now rule.now elements.now))) }
{
    match distributor_waits(alloc, store, rule, elements)? {
        Input::Known(waits) => Ok(distributing(waits)),
        Input::Unknown(variable) => ready_by(alloc, Some(&variable)),
        Input::OtherKind => Ok(Readiness::Steps),
    }
}
