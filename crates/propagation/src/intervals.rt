//! The intervals of domains.
ghost use Rattle.std.specs.Prelude.{◌≡◌, [], ◌∷◌, IfOk};
ghost use Rattle.oz_domains.specs.Domains.{interval_eq, intervals_eq, intervals_of};
ghost use Rattle.oz_semantics.specs.declared.value.Tell.TheVariants.{Within};
ghost use Rattle.term_store.specs.VariableDomains.{set_of};

use fd_domain::Domain;
use oz_base::{Copies, Ident, Interval, Sequence};
use oz_semantics::Tell;
use std::alloc::{AllocError, Global};
use term_store::VariableDomain;

fn is_of_one(interval: &Interval, integer: i128) -> bool
    ensures { result ≡ interval_eq interval.now (record { low = integer; high = integer }) }
{
    interval.low as i128 == integer && interval.high as i128 == integer
}

/// Whether these are the intervals of one integer.
fn are_of_one(intervals: &[Interval], integer: i128) -> bool
    ensures { result ≡ intervals_eq intervals.now (record { low = integer; high = integer } ∷ []) }
{
    if intervals.len() != 1 {
        return false;
    }
    is_of_one(&intervals[0], integer)
}

fn are_equal(intervals: &[Interval], others: &[Interval]) -> bool
    ensures { result ≡ intervals_eq intervals.now others.now }
{
    intervals == others
}

/// Whether these are the intervals of a domain.
pub fn are_of(intervals: &[Interval], domain: VariableDomain) -> bool
    ensures { result ≡ intervals_eq intervals.now (intervals_of (set_of domain.entry)) }
{
    match domain {
        VariableDomain::Integer(integer) => are_of_one(intervals, integer),
        VariableDomain::Told(domain) => are_equal(intervals, domain.intervals()),
    }
}

/// The intervals of one integer. It refuses one that no interval has.
fn intervals_of_one(alloc: Global, integer: i128) -> Result<Sequence<Interval>, AllocError>
    ensures { IfOk result (λ intervals. intervals ≡ record { low = integer; high = integer } ∷ []) }
{
    if integer < i64::MIN as i128 || (i64::MAX as i128) < integer {
        return Err(AllocError);
    }
    let value = integer as i64;
    let mut intervals = Sequence::new(alloc);
    intervals.push(Interval {
        low: value,
        high: value,
    })?;
    Ok(intervals)
}

fn copy_of(alloc: Global, intervals: &[Interval]) -> Result<Sequence<Interval>, AllocError>
    ensures { IfOk result (λ copy. copy ≡ intervals.now) }
{
    Ok(Sequence::from_vec(Vec::from_slice(alloc, intervals)?))
}

/// The intervals of a domain.
pub fn intervals_of(alloc: Global, domain: VariableDomain) -> Result<Sequence<Interval>, AllocError>
    ensures { IfOk result (λ intervals. intervals ≡ intervals_of (set_of domain.entry)) }
{
    match domain {
        VariableDomain::Integer(integer) => intervals_of_one(alloc, integer),
        VariableDomain::Told(domain) => copy_of(alloc, domain.intervals()),
    }
}

/// A variable has this domain.
pub fn confinement(alloc: Global, variable: &Ident, domain: &Domain) -> Result<Tell, AllocError>
    ensures { IfOk result (λ tell. tell ≡ Within variable.now (intervals_of domain.now)) }
{
    Ok(Tell::Within {
        variable: variable.copied(alloc)?,
        intervals: copy_of(alloc, domain.intervals())?,
    })
}
