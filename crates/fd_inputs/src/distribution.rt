//! What a distributor does.
ghost use Rattle.std.specs.Prelude.{◌≡◌, false, [], IfOk, MatchOption, filter, map, option_map};
ghost use Rattle.std.specs.Vec.{vec_items};
ghost use Rattle.std.specs.List.{list_any};
ghost use Rattle.oz_semantics.specs.Distributors.{distribution, distribution_of as distributed, is_bare, is_foreign, rule_in, rule_input, splits, undetermined};
ghost use Rattle.oz_base.specs.declared.distribution.Rule as rules;
ghost use Rattle.oz_semantics.specs.Propagation.{domain_in};
ghost use Rattle.fd_inputs.specs.Answers.{as_it_is, distribution_of, input_of, offered, offered_in, IsUntold};

use crate::input::{Input, both};
use crate::parts::{confinement, first_part, second_part};
use crate::values::{integer_in, is_atom};
use crate::vectors::vector as elements_of;
use crate::words::{FF, NAIVE, SPLIT};
use distributors::{Rule, pick};
use fd_domain::Domain;
use oz_base::{Copies, Ident};
use oz_semantics::{Tell, Value};
use std::alloc::{AllocError, Global};
use term_store::{Store, VariableDomain};

/// What a distributor does next.
#[derive(Drop)]
pub enum Distribution {
    /// These elements are told all domain values, and it starts anew.
    Widens(Vec<Ident>),
    /// All elements are determined.
    Finished,
    /// One of two parts of a domain is told, the first or the second; it waits for these elements as well.
    Splits {
        first: Tell,
        second: Tell,
        waits: Vec<Ident>,
    },
}

fn rule_in(value: &Value) -> Option<Rule>
    ensures { result ≡ rule_in value.now }
{
    if is_atom(value, NAIVE) {
        return Some(Rule::Naive);
    }
    if is_atom(value, FF) {
        return Some(Rule::FirstFail);
    }
    if is_atom(value, SPLIT) {
        return Some(Rule::Split);
    }
    None
}

/// The rule that a variable is.
fn rule_input(alloc: Global, store: &Store, x: &Ident) -> Result<Input<Rule>, AllocError>
    ensures { IfOk result (λ input. input_of as_it_is input ≡ rule_input store.now x.now) }
{
    let Some(value) = store.value(x) else {
        return Ok(Input::Unknown(x.copied(alloc)?));
    };
    match rule_in(value) {
        None => Ok(Input::OtherKind),
        Some(rule) => Ok(Input::Known(rule)),
    }
}

/// Whether an element is determined, and no integer.
fn is_foreign(store: &Store, x: &Ident) -> bool
    ensures { result ≡ is_foreign store.now x.now }
{
    match store.value(x) {
        None => false,
        Some(value) => integer_in(value).is_none(),
    }
}

/// Whether one of the elements is determined, and no integer.
fn has_foreign(store: &Store, xs: &[Ident]) -> bool
    ensures { result ≡ list_any (is_foreign store.now) xs.now }
{
    xs.iter().any(|x| is_foreign(store, x))
}

/// Whether an element is neither determined to an integer nor has a domain.
fn is_bare(store: &Store, x: &Ident) -> bool
    ensures { result ≡ is_bare store.now x.now }
{
    store.domain(x).is_none()
}

/// The elements that are neither determined to integers nor have domains.
fn bare_ones(alloc: Global, store: &Store, xs: &[Ident]) -> Result<Vec<Ident>, AllocError>
    ensures { IfOk result (λ ones. ones.items ≡ filter (is_bare store.now) xs.now) }
{
    let mut ones = Vec::new(alloc);
    for x in xs {
        if is_bare(store, x) {
            ones.push(x.copied(alloc)?)?;
        }
    }
    Ok(ones)
}

/// The elements that are not determined.
fn undetermined(alloc: Global, store: &Store, xs: &[Ident]) -> Result<Vec<Ident>, AllocError>
    ensures { IfOk result (λ ones. ones.items ≡ undetermined store.now xs.now) }
{
    let mut ones = Vec::new(alloc);
    for x in xs {
        if !store.is_determined(x) {
            ones.push(x.copied(alloc)?)?;
        }
    }
    Ok(ones)
}

/// The domain that an element was told. None where it has none, or is one integer.
fn told_domain<'a>(store: &'a Store, x: &Ident) -> Option<&'a Domain>
    ensures { MatchOption result (IsUntold store.now x.now) (λ domain. domain.now ≡ domain_in store.now x.now) }
{
    match store.domain(x) {
        Some(VariableDomain::Told(domain)) => Some(domain),
        Some(VariableDomain::Integer(_)) => None,
        None => None,
    }
}

/// The domain of an element that is not determined. It refuses one that was told none.
fn domain_of(alloc: Global, store: &Store, x: &Ident) -> Result<Domain, AllocError>
    ensures { IfOk result (λ domain. domain ≡ domain_in store.now x.now) }
{
    match told_domain(store, x) {
        Some(domain) => domain.copied(alloc),
        None => Err(AllocError),
    }
}

fn domains_of(alloc: Global, store: &Store, xs: &[Ident]) -> Result<Vec<Domain>, AllocError>
    ensures { IfOk result (λ domains. domains.items ≡ map (domain_in store.now) xs.now) }
{
    let mut domains = Vec::new(alloc);
    for x in xs {
        domains.push(domain_of(alloc, store, x)?)?;
    }
    Ok(domains)
}

/// What a distributor does where all elements have domains: it splits that of one which is not determined.
fn splits(
    alloc: Global,
    store: &Store,
    rule: Rule,
    xs: &[Ident],
) -> Result<Distribution, AllocError>
    requires integers { list_any (is_foreign store.now) xs.now ≡ false }
    requires domains { filter (is_bare store.now) xs.now ≡ [] }
    ensures { IfOk result (λ d. distribution_of d ≡ splits store.now rule xs.now) }
{
    let waits = undetermined(alloc, store, xs)?;
    let domains = domains_of(alloc, store, waits.as_slice())?;
    let Some(split) = pick(rule, domains.as_slice()) else {
        return Ok(Distribution::Finished);
    };
    let x = &waits[split.var];
    let domain = &domains[split.var];
    let first = confinement(alloc, x, &first_part(alloc, split.test, domain)?)?;
    let second = confinement(alloc, x, &second_part(alloc, split.test, domain)?)?;
    Ok(Distribution::Splits {
        first,
        second,
        waits,
    })
}

/// What a distributor does with these elements.
fn distributed(
    alloc: Global,
    store: &Store,
    rule: Rule,
    xs: &[Ident],
) -> Result<Input<Distribution>, AllocError>
    ensures { IfOk result (λ input. input_of distribution_of input ≡ distributed store.now rule xs.now) }
{
    if has_foreign(store, xs) {
        return Ok(Input::OtherKind);
    }
    let bare = bare_ones(alloc, store, xs)?;
    if !bare.is_empty() {
        return Ok(Input::Known(Distribution::Widens(bare)));
    }
    Ok(Input::Known(splits(alloc, store, rule, xs)?))
}

/// The elements that a distributor waits for besides, where all have domains. None where it steps.
fn waited_for(alloc: Global, store: &Store, xs: &[Ident]) -> Result<Option<Vec<Ident>>, AllocError>
    requires integers { list_any (is_foreign store.now) xs.now ≡ false }
    requires domains { filter (is_bare store.now) xs.now ≡ [] }
    ensures { (rule : rules.Rule) → IfOk result (λ waits. option_map vec_items waits ≡ offered (splits store.now rule xs.now)) }
{
    let waits = undetermined(alloc, store, xs)?;
    if waits.is_empty() {
        return Ok(None);
    }
    Ok(Some(waits))
}

/// The elements that a distributor with these elements waits for besides.
fn offered(
    alloc: Global,
    store: &Store,
    xs: &[Ident],
) -> Result<Input<Option<Vec<Ident>>>, AllocError>
    ensures { (rule : rules.Rule) → IfOk result (λ input. input_of (option_map vec_items) input ≡ offered_in (distributed store.now rule xs.now)) }
{
    if has_foreign(store, xs) {
        return Ok(Input::OtherKind);
    }
    let bare = bare_ones(alloc, store, xs)?;
    if !bare.is_empty() {
        return Ok(Input::Known(None));
    }
    Ok(Input::Known(waited_for(alloc, store, xs)?))
}

/// The elements that a distributor with this rule and this vector waits for besides, where it offers two parts of a domain. None where
/// it steps. It makes no part, and refuses where there is no memory.
pub fn distributor_waits(
    alloc: Global,
    store: &Store,
    rule: &Ident,
    vector: &Ident,
) -> Result<Input<Option<Vec<Ident>>>, AllocError>
    ensures { IfOk result (λ input. input_of (option_map vec_items) input ≡ offered_in (distribution store.now rule.now vector.now)) }
{
    let rule = rule_input(alloc, store, rule)?;
    let elements = elements_of(alloc, store, vector)?;
    match both(rule, elements) {
        Input::Known((_, elements)) => offered(alloc, store, elements.as_slice()),
        Input::Unknown(x) => Ok(Input::Unknown(x)),
        Input::OtherKind => Ok(Input::OtherKind),
    }
}

/// What a distributor with this rule and this vector does. It refuses where there is no memory.
pub fn distribute(
    alloc: Global,
    store: &Store,
    rule: &Ident,
    vector: &Ident,
) -> Result<Input<Distribution>, AllocError>
    ensures { IfOk result (λ input. input_of distribution_of input ≡ distribution store.now rule.now vector.now) }
{
    let rule = rule_input(alloc, store, rule)?;
    let elements = elements_of(alloc, store, vector)?;
    match both(rule, elements) {
        Input::Known((rule, elements)) => distributed(alloc, store, rule, elements.as_slice()),
        Input::Unknown(x) => Ok(Input::Unknown(x)),
        Input::OtherKind => Ok(Input::OtherKind),
    }
}
