//! The domain of a class of variables.
ghost use Rattle.std.specs.Prelude.{◌≡◌, Some, IfOk, option_map, option_and_then, option_copied};
ghost use Rattle.oz_domains.specs.Domains.{only, IsDomain};
ghost use Rattle.oz_semantics.specs.Values.{integer};
ghost use Rattle.term_store.specs.Bounds.{has_value, Meeting};
ghost use Rattle.term_store.specs.declared.class_domain.Met.TheVariants.{Left};

use fd_domain::{Cut, Domain};
use oz_base::{Copies, Shared};
use oz_language::Constant;
use oz_semantics::Value;
use std::alloc::{AllocError, Global};
use std::marker::Model;

/// A domain, and its one integer as a value where it has no other. Contracts see the set.
#[derive(Drop)]
pub struct ClassDomain {
    domain: Domain,
    value: Option<Value>,
}

impl Model for ClassDomain {
    ghost use Rattle.std.specs.FinSet as set;
    ghost use Rattle.std.specs.Coded.{coded_ℤ};
    ghost use Rattle.std.specs.Prelude.{◌≡◌, option_map};
    ghost use Rattle.oz_domains.specs.Domains.{IntSet, only};
    ghost use Rattle.oz_semantics.specs.Values.{integer};

    ghost Value = { IntSet };

    ghost coded = { set.code coded_ℤ };

    ghost view = { λ c. c.domain };

    ghost invariant = { λ c. c.value ≡ option_map integer (only c.domain) };
}

/// The one integer of a domain.
fn only_value(domain: &Domain) -> Option<Value>
    ensures { result ≡ option_map integer (only domain.now) }
{
    if domain.is_single() {
        return Some(Value::Constant(Constant::Int(domain.min() as i128)));
    }
    None
}

impl ClassDomain {
    pub fn new(domain: Domain) -> ClassDomain
        ensures { result ≡ domain }
    {
        let value = only_value(&domain);
        ClassDomain { domain, value }
    }

    pub fn domain(&self) -> &Domain
        ensures domain { result.now ≡ self.now }
    {
        &self.domain
    }

    /// The one integer, where the domain has no other.
    pub fn value(&self) -> Option<&Value>
        ensures { option_copied result ≡ option_map integer (option_and_then only (Some self.now)) }
    {
        self.value.as_ref()
    }

    /// Whether a value is an integer of the domain.
    pub fn has(&self, value: &Value) -> bool
        ensures { result ≡ has_value self.now value.now }
    {
        match value {
            Value::Constant(Constant::Int(integer)) => self.domain.has_integer(*integer),
            _ => false,
        }
    }

    /// A domain is never empty. Nothing: it holds a law.
    pub fn law(&self)
        ensures { IsDomain self.now }
    {
        let _ = self.domain.min();
    }
}

/// A copy of the domain, if there is one.
pub fn domain_copy(
    alloc: Global,
    domain: Option<&Shared<ClassDomain>>,
) -> Result<Option<Shared<ClassDomain>>, AllocError>
    ensures { IfOk result (λ copy. copy ≡ option_copied domain.entry) }
{
    match domain {
        None => Ok(None),
        Some(domain) => Ok(Some(domain.copied(alloc)?)),
    }
}

/// What the domains of two classes have in common.
#[derive(Drop)]
pub enum Met {
    /// No integer.
    Nothing,
    /// These integers, or none of the classes has a domain.
    Left(Option<Shared<ClassDomain>>),
}

fn shared(alloc: Global, domain: Domain) -> Result<Met, AllocError>
    ensures { IfOk result (λ met. met ≡ Left (Some domain)) }
{
    let shared = Shared::new(alloc, ClassDomain::new(domain))?;
    Ok(Met::Left(Some(shared)))
}

/// The integers that two domains have in common.
fn intersection(alloc: Global, one: &ClassDomain, other: &ClassDomain) -> Result<Met, AllocError>
    ensures { IfOk result (Meeting (Some one.now) (Some other.now)) }
{
    let mut domain = one.domain().copied(alloc)?;
    let cut = domain.meet(alloc, other.domain())?;
    let _ = domain.min();
    match cut {
        Cut::Empty => Ok(Met::Nothing),
        Cut::Same => shared(alloc, domain),
        Cut::Changed => shared(alloc, domain),
    }
}

/// A domain that is kept as it is.
fn alone(alloc: Global, domain: &Shared<ClassDomain>) -> Result<Met, AllocError>
    ensures left { IfOk result (λ met. met ≡ Left (Some domain.now)) }
    ensures domain { IsDomain domain.now }
{
    domain.get().law();
    Ok(Met::Left(Some(domain.copied(alloc)?)))
}

/// What the domains of two classes have in common.
pub fn common(
    alloc: Global,
    one: Option<&Shared<ClassDomain>>,
    other: Option<&Shared<ClassDomain>>,
) -> Result<Met, AllocError>
    ensures { IfOk result (Meeting (option_copied one.entry) (option_copied other.entry)) }
{
    match (one, other) {
        (None, None) => Ok(Met::Left(None)),
        (Some(domain), None) => alone(alloc, domain),
        (None, Some(domain)) => alone(alloc, domain),
        (Some(domain), Some(another)) => intersection(alloc, domain.get(), another.get()),
    }
}
