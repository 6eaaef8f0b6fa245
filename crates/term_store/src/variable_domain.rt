//! What a variable may be.
ghost use Rattle.std.specs.Prelude.{◌≡◌, option_copied, option_map};
ghost use Rattle.oz_domains.specs.Domains.{single};
ghost use Rattle.oz_semantics.specs.Values.{integer_in};
ghost use Rattle.term_store.specs.VariableDomains.{set_of};

use fd_domain::Domain;
use oz_language::Constant;
use oz_semantics::Value;

/// The domain of a variable.
#[derive(Drop)]
pub enum VariableDomain<'a> {
    /// It is determined to this integer, which need not be one that a domain may have.
    Integer(i128),
    /// What is left of the domains that its class was told.
    Told(&'a Domain),
}

/// The domain of a variable that has this value.
pub fn of_value<'a>(value: &Value) -> Option<VariableDomain<'a>>
    ensures { option_map set_of result ≡ option_map single (integer_in value.now) }
{
    match value {
        Value::Constant(Constant::Int(integer)) => Some(VariableDomain::Integer(*integer)),
        _ => None,
    }
}

/// The domain of a variable that has no value, if its class was told one.
pub fn of_told<'a>(domain: Option<&'a Domain>) -> Option<VariableDomain<'a>>
    ensures { option_map set_of result ≡ option_copied domain.entry }
{
    match domain {
        None => None,
        Some(domain) => Some(VariableDomain::Told(domain)),
    }
}
