//! Runs of propagators.
ghost use Rattle.std.specs.Prelude.{◌≡◌, Some, IfOk, length};
ghost use Rattle.oz_domains.specs.Domains.{is_domain_value, single};
ghost use Rattle.oz_semantics.specs.Propagation.{if_consistent, narrowed, run_of};
ghost use Rattle.oz_semantics.specs.Store.{domain_of, news};
ghost use Rattle.propagation.specs.Runs.{run_as, AreDomainsOf, IsOneTold};
ghost use Rattle.term_store.specs.VariableDomains.{set_of};

use crate::intervals::confinement;
use fd_domain::Domain;
use oz_base::{Copies, GREATEST_VALUE, Ident, LEAST_VALUE};
use oz_semantics::{Propagator, Tell};
use propagators::{Narrowed, fits, narrow};
use std::alloc::{AllocError, Global};
use std::slice;
use term_store::{Store, VariableDomain};

/// What a run of a propagator comes to.
#[derive(Drop)]
pub enum Run {
    Fails,
    /// What the store is told; nothing where the propagator rests.
    Narrows(Vec<Tell>),
}

/// Whether an integer is a domain value.
fn is_domain_value(integer: i128) -> bool
    ensures { result ≡ is_domain_value integer }
{
    LEAST_VALUE as i128 <= integer && integer <= GREATEST_VALUE as i128
}

/// The domain of one integer. It refuses one that is no domain value.
fn domain_of_one(alloc: Global, integer: i128) -> Result<Domain, AllocError>
    ensures { IfOk result (λ domain. domain ≡ single integer) }
{
    if !is_domain_value(integer) {
        return Err(AllocError);
    }
    let value = integer as i64;
    match Domain::range(alloc, value, value)? {
        None => Err(AllocError),
        Some(domain) => Ok(domain),
    }
}

/// The domain that a variable has, as a copy.
fn copied(alloc: Global, domain: VariableDomain) -> Result<Domain, AllocError>
    ensures { IfOk result (λ copy. copy ≡ set_of domain.entry) }
{
    match domain {
        VariableDomain::Integer(integer) => domain_of_one(alloc, integer),
        VariableDomain::Told(domain) => domain.copied(alloc),
    }
}

/// The domain of a variable. It refuses one that has none.
fn domain_of(alloc: Global, store: &Store, variable: &Ident) -> Result<Domain, AllocError>
    ensures { IfOk result (λ domain. domain_of store.now variable.now ≡ Some domain) }
{
    match store.domain(variable) {
        None => Err(AllocError),
        Some(domain) => copied(alloc, domain),
    }
}

/// The domains of variables. It refuses where one has none.
fn domains_of(alloc: Global, store: &Store, variables: &[Ident]) -> Result<Vec<Domain>, AllocError>
    ensures { IfOk result (λ domains. AreDomainsOf store.now variables.now domains.items) }
{
    let mut domains = Vec::with_capacity(alloc, variables.len())?;
    for variable in variables {
        domains.push(domain_of(alloc, store, variable)?)?;
    }
    Ok(domains)
}

/// Each of these variables has its domain.
fn confinements(
    alloc: Global,
    variables: &[Ident],
    domains: &[Domain],
) -> Result<Vec<Tell>, AllocError>
    requires { length domains.now ≡ length variables.now }
    ensures { IfOk result (λ tells. tells.items ≡ narrowed variables.now domains.now) }
{
    let mut tells = Vec::with_capacity(alloc, variables.len())?;
    for i in 0..variables.len() {
        tells.push(confinement(alloc, &variables[i], &domains[i])?)?;
    }
    Ok(tells)
}

/// Tells a store this. False exactly where it is inconsistent with what was told before.
fn is_told(alloc: Global, store: &mut Store, tell: &Tell) -> Result<bool, AllocError>
    ensures { IfOk result (IsOneTold store.old store.new tell.now) }
{
    let mut touched = Vec::new(alloc);
    store.tell(alloc, slice::from_ref(tell), &mut touched)
}

/// What of this is news to a store, each after those before it, if it is consistent with it. It is told to a copy.
fn news_of(alloc: Global, store: &Store, tells: &[Tell]) -> Result<Run, AllocError>
    ensures { IfOk result (λ run. run_as run ≡ if_consistent store.now (news store.now tells.now)) }
{
    let mut copy = store.copied(alloc)?;
    let mut told = Vec::new(alloc);
    for tell in tells {
        if !copy.is_news(tell) {
            continue;
        }
        if !is_told(alloc, &mut copy, tell)? {
            return Ok(Run::Fails);
        }
        told.push(tell.copied(alloc)?)?;
    }
    copy.consistent();
    Ok(Run::Narrows(told))
}

/// What a run of the propagator comes to. It refuses where there is no memory.
pub fn run_of(alloc: Global, store: &Store, propagator: &Propagator) -> Result<Run, AllocError>
    ensures { IfOk result (λ run. run_as run ≡ run_of store.now propagator.now) }
{
    let variables = propagator.variables.as_slice();
    let mut domains = domains_of(alloc, store, variables)?;
    if !fits(&propagator.relation, domains.len()) {
        return Err(AllocError);
    }
    store.consistent();
    match narrow(alloc, &propagator.relation, domains.as_mut_slice())? {
        Narrowed::Fail => Ok(Run::Fails),
        Narrowed::Same => Ok(Run::Narrows(Vec::new(alloc))),
        Narrowed::Changed => {
            let tells = confinements(alloc, variables, domains.as_slice())?;
            news_of(alloc, store, tells.as_slice())
        }
    }
}
