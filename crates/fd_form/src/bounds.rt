//! The bounds of a domain, as a script describes them.
ghost use Rattle.std.specs.Prelude.{◌≡◌};
ghost use Rattle.oz_domains.specs.Domains.{is_domain_value};
ghost use Rattle.oz_language.specs.Grammar.{hashes, of_list};
ghost use Rattle.oz_syntax.specs.View.{view, views};
ghost use Rattle.fd_form.specs.Parts.{bound_of, bounds_of, only_if};

use crate::lists::two_of;
use crate::names::integer_of;
use oz_base::{GREATEST_VALUE, LEAST_VALUE};
use oz_syntax::Phrase;

/// An integer that a domain may have.
fn domain_value(value: i128) -> Option<i64>
    ensures { result ≡ only_if (is_domain_value value) value }
{
    if LEAST_VALUE as i128 <= value && value <= GREATEST_VALUE as i128 {
        Some(value as i64)
    } else {
        None
    }
}

/// One bound.
fn bound_of(phrase: &Phrase) -> Option<i64>
    ensures { result ≡ bound_of (view phrase.now) }
{
    domain_value(integer_of(phrase)?)
}

/// The bounds `L#H`.
#[tactic(auto, using(crate::proofs::PartLaws::bounds_two))]
fn pair(parts: &[Phrase]) -> Option<(i64, i64)>
    ensures { result ≡ bounds_of (hashes (of_list (views parts.now))) }
{
    let (low, high) = two_of(parts)?;
    let low = bound_of(low)?;
    let high = bound_of(high)?;
    Some((low, high))
}

/// The least and the greatest value that a description has: one integer, or `L#H`.
pub fn bounds_of(phrase: &Phrase) -> Option<(i64, i64)>
    ensures { result ≡ bounds_of (view phrase.now) }
{
    match phrase {
        Phrase::Int { value, .. } => {
            let value = domain_value(*value)?;
            Some((value, value))
        }
        Phrase::Hashes { elements } => pair(elements),
        Phrase::Paren { inner, .. } => match inner.as_slice() {
            [value] => bounds_of(value),
            [] => None,
            [_, _, ..] => None,
        },
        _ => None,
    }
}
