//! Which propagators are due.
ghost use Rattle.std.specs.Prelude.{◌≡◌, IfOk, position};
ghost use Rattle.std.specs.List.{list_any};
ghost use Rattle.oz_domains.specs.Domains.{intervals_eq, intervals_of};
ghost use Rattle.oz_semantics.specs.Propagation.{all_eq, domain_in, is_due, is_undecided, noted};

use crate::intervals::{are_of, intervals_of};
use oz_base::{Ident, Interval, Sequence, Shared};
use oz_semantics::{LastRun, Propagator};
use std::alloc::{AllocError, Global};
use term_store::Store;

/// Whether these are the intervals of a variable's domain.
fn is_as_seen(store: &Store, seen: &[Interval], variable: &Ident) -> bool
    ensures { result ≡ intervals_eq seen.now (intervals_of (domain_in store.now variable.now)) }
{
    match store.domain(variable) {
        None => seen.is_empty(),
        Some(domain) => are_of(seen, domain),
    }
}

/// Whether these are the intervals of the domains of variables.
fn are_as_seen(store: &Store, seen: &[Sequence<Interval>], variables: &[Ident]) -> bool
    ensures { result ≡ all_eq seen.now (noted store.now variables.now) }
{
    if seen.len() != variables.len() {
        return false;
    }
    for i in 0..seen.len() {
        if !is_as_seen(store, seen[i].as_slice(), &variables[i]) {
            return false;
        }
    }
    true
}

/// Whether a propagator has not run, or the domains of its variables differ from those at the start of its last run. It takes no
/// memory.
pub fn is_due(store: &Store, propagator: &Propagator) -> bool
    ensures { result ≡ is_due store.now propagator.now }
{
    match &propagator.last {
        LastRun::Never => true,
        LastRun::Saw(domains) => {
            !are_as_seen(
                store,
                domains.get().as_slice(),
                propagator.variables.as_slice(),
            )
        }
    }
}

/// The place of the first propagator that is due.
pub fn first_due(store: &Store, propagators: &[Propagator]) -> Option<usize>
    ensures { result ≡ position (is_due store.now) propagators.now }
{
    propagators
        .iter()
        .position(|propagator| is_due(store, propagator))
}

/// Whether a propagator is due.
pub fn has_due(store: &Store, propagators: &[Propagator]) -> bool
    ensures { result ≡ list_any (is_due store.now) propagators.now }
{
    propagators
        .iter()
        .any(|propagator| is_due(store, propagator))
}

/// Whether a variable of a propagator is not determined.
pub fn is_undecided(store: &Store, propagator: &Propagator) -> bool
    ensures { result ≡ is_undecided store.now propagator.now }
{
    propagator
        .variables
        .as_slice()
        .iter()
        .any(|variable| !store.is_determined(variable))
}

/// Whether a variable of one of these propagators is not determined.
pub fn any_undecided(store: &Store, propagators: &[Propagator]) -> bool
    ensures { result ≡ list_any (is_undecided store.now) propagators.now }
{
    propagators
        .iter()
        .any(|propagator| is_undecided(store, propagator))
}

/// The intervals of a variable's domain.
fn intervals_in(
    alloc: Global,
    store: &Store,
    variable: &Ident,
) -> Result<Sequence<Interval>, AllocError>
    ensures { IfOk result (λ intervals. intervals ≡ intervals_of (domain_in store.now variable.now)) }
{
    match store.domain(variable) {
        None => Ok(Sequence::new(alloc)),
        Some(domain) => intervals_of(alloc, domain),
    }
}

/// The domains of variables, each as its intervals. It refuses where there is no memory.
pub fn seen(
    alloc: Global,
    store: &Store,
    variables: &[Ident],
) -> Result<Shared<Sequence<Sequence<Interval>>>, AllocError>
    ensures { IfOk result (λ domains. domains ≡ noted store.now variables.now) }
{
    let mut domains = Vec::with_capacity(alloc, variables.len())?;
    for variable in variables {
        domains.push(intervals_in(alloc, store, variable)?)?;
    }
    Shared::new(alloc, Sequence::from_vec(domains))
}
