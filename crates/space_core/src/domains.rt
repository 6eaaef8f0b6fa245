//! Whether variables have the same domain.
ghost use Rattle.std.specs.Prelude.{◌≡◌, ◌∷◌, [], option_map};
ghost use Rattle.oz_domains.specs.Domains.{intervals_of, intervals_eq};
ghost use Rattle.oz_semantics.specs.Spaces.{domains_eq};
ghost use Rattle.term_store.specs.VariableDomains.{set_of};

use oz_base::Interval;
use term_store::VariableDomain;

/// Whether these are the intervals of the integer alone.
fn is_all_of(integer: i128, intervals: &[Interval]) -> bool
    ensures { result ≡ intervals_eq (record { low = integer; high = integer } ∷ []) intervals.now }
{
    match intervals {
        [one] => integer == one.low as i128 && integer == one.high as i128,
        _ => false,
    }
}

fn same_integer(left: i128, right: i128) -> bool
    ensures { result ≡ intervals_eq (record { low = left; high = left } ∷ []) (record { low = right; high = right } ∷ []) }
{
    left == right
}

fn are_equal(intervals: &[Interval], others: &[Interval]) -> bool
    ensures { result ≡ intervals_eq intervals.now others.now }
{
    intervals == others
}

/// Whether a variable of this domain may be the integer alone.
fn is_integer(integer: i128, domain: &VariableDomain<'_>) -> bool
    ensures { result ≡ intervals_eq (record { low = integer; high = integer } ∷ []) (intervals_of (set_of domain.now)) }
{
    match domain {
        VariableDomain::Integer(other) => same_integer(integer, *other),
        VariableDomain::Told(other) => is_all_of(integer, other.intervals()),
    }
}

/// Whether these are the intervals of the domain.
fn are_those(intervals: &[Interval], domain: &VariableDomain<'_>) -> bool
    ensures { result ≡ intervals_eq intervals.now (intervals_of (set_of domain.now)) }
{
    match domain {
        VariableDomain::Integer(integer) => is_all_of(*integer, intervals),
        VariableDomain::Told(other) => are_equal(intervals, other.intervals()),
    }
}

fn same_integers(left: &VariableDomain<'_>, right: &VariableDomain<'_>) -> bool
    ensures { result ≡ intervals_eq (intervals_of (set_of left.now)) (intervals_of (set_of right.now)) }
{
    match left {
        VariableDomain::Integer(integer) => is_integer(*integer, right),
        VariableDomain::Told(domain) => are_those(domain.intervals(), right),
    }
}

/// Whether two variables have the same domain, or none of them has one.
pub fn domains_eq(left: Option<VariableDomain<'_>>, right: Option<VariableDomain<'_>>) -> bool
    ensures { result ≡ domains_eq (option_map set_of left.entry) (option_map set_of right.entry) }
{
    match (left, right) {
        (None, None) => true,
        (Some(left), Some(right)) => same_integers(&left, &right),
        _ => false,
    }
}
