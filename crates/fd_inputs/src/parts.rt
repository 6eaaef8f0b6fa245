//! The parts of a domain.
ghost use Rattle.std.specs.Prelude.{◌≡◌, ◌+ℤ◌, pos, IfOk};
ghost use Rattle.oz_base.specs.declared.distribution.Test.TheVariants.{AtMost, Is};
ghost use Rattle.oz_domains.specs.Domains.{intervals_of};
ghost use Rattle.oz_domains.specs.Splits.{first_part, second_part, AreHalves};
ghost use Rattle.oz_semantics.specs.declared.value.Tell.TheVariants.{Within};

use distributors::Test;
use fd_domain::Domain;
use oz_base::{Copies, Ident, Sequence};
use oz_semantics::Tell;
use std::alloc::{AllocError, Global};

/// The value alone at which a domain is split.
fn value_alone(alloc: Global, value: i64, domain: &Domain) -> Result<Domain, AllocError>
    requires { AreHalves (Is value) domain.now }
    ensures { IfOk result (λ part. part ≡ first_part (Is value) domain.now) }
{
    let mut part = domain.copied(alloc)?;
    part.cut_below(value);
    part.cut_above(value);
    Ok(part)
}

/// The values up to one at which a domain is halved.
fn lower_half(alloc: Global, value: i64, domain: &Domain) -> Result<Domain, AllocError>
    requires { AreHalves (AtMost value) domain.now }
    ensures { IfOk result (λ part. part ≡ first_part (AtMost value) domain.now) }
{
    let mut part = domain.copied(alloc)?;
    part.cut_above(value);
    Ok(part)
}

/// What is left of a domain in the first alternative.
pub fn first_part(alloc: Global, test: Test, domain: &Domain) -> Result<Domain, AllocError>
    requires { AreHalves test domain.now }
    ensures { IfOk result (λ part. part ≡ first_part test domain.now) }
{
    match test {
        Test::Is(value) => value_alone(alloc, value, domain),
        Test::AtMost(value) => lower_half(alloc, value, domain),
    }
}

/// The other values than the one at which a domain is split.
fn other_values(alloc: Global, value: i64, domain: &Domain) -> Result<Domain, AllocError>
    requires { AreHalves (Is value) domain.now }
    ensures { IfOk result (λ part. part ≡ second_part (Is value) domain.now) }
{
    let mut part = domain.copied(alloc)?;
    part.remove(value)?;
    Ok(part)
}

/// The least value above one at which a domain is halved.
fn next_above(value: i64, domain: &Domain) -> i64
    requires { AreHalves (AtMost value) domain.now }
    ensures { result ≡ value +ℤ pos 1 }
{
    let _ = domain.max();
    value + 1
}

/// The values above one at which a domain is halved.
fn upper_half(alloc: Global, value: i64, domain: &Domain) -> Result<Domain, AllocError>
    requires { AreHalves (AtMost value) domain.now }
    ensures { IfOk result (λ part. part ≡ second_part (AtMost value) domain.now) }
{
    let next = next_above(value, domain);
    let mut part = domain.copied(alloc)?;
    part.cut_below(next);
    Ok(part)
}

/// What is left of a domain in the second alternative.
pub fn second_part(alloc: Global, test: Test, domain: &Domain) -> Result<Domain, AllocError>
    requires { AreHalves test domain.now }
    ensures { IfOk result (λ part. part ≡ second_part test domain.now) }
{
    match test {
        Test::Is(value) => other_values(alloc, value, domain),
        Test::AtMost(value) => upper_half(alloc, value, domain),
    }
}

/// A variable is an integer of the domain.
pub fn confinement(alloc: Global, x: &Ident, domain: &Domain) -> Result<Tell, AllocError>
    ensures { IfOk result (λ tell. tell ≡ Within x.now (intervals_of domain.now)) }
{
    Ok(Tell::Within {
        variable: x.copied(alloc)?,
        intervals: Sequence::from_vec(Vec::from_slice(alloc, domain.intervals())?),
    })
}
