//! What a tell may do.
ghost use Rattle.std.specs.Prelude.{◌≡◌, is_some};
ghost use Rattle.std.specs.List.{list_all};
ghost use Rattle.oz_semantics.specs.Store.{told_value, told_domain, domain_of};
ghost use Rattle.watching.specs.Watching.{equates_free, is_domainless, is_free, joins_free, joins_nothing};

use oz_base::Ident;
use oz_semantics::Tell;
use term_store::{Store, fields_of};

/// Whether it makes no two variables equal.
fn joins_nothing(tell: &Tell) -> bool
    ensures { result ≡ joins_nothing tell.now }
{
    match tell {
        Tell::Equal { .. } => false,
        Tell::Is { value, .. } => fields_of(value).is_empty(),
        Tell::Within { .. } => true,
    }
}

/// Whether they make no two variables equal.
pub fn join_nothing(tells: &[Tell]) -> bool
    ensures { result ≡ list_all joins_nothing tells.now }
{
    tells.iter().all(joins_nothing)
}

/// Whether a variable has a domain.
pub fn has_domain(store: &Store, variable: &Ident) -> bool
    ensures { result ≡ is_some (domain_of store.now variable.now) }
{
    store.domain(variable).is_some()
}

/// Whether a variable's class was told a value.
pub fn has_value(store: &Store, variable: &Ident) -> bool
    ensures { result ≡ is_some (told_value store.now variable.now) }
{
    store.told_value(variable).is_some()
}

/// Whether neither a value nor a domain was told of a variable's class.
fn is_free(store: &Store, variable: &Ident) -> bool
    ensures { result ≡ is_free store.now variable.now }
{
    !has_value(store, variable) && !is_told_domain(store, variable)
}

fn is_told_domain(store: &Store, variable: &Ident) -> bool
    ensures { result ≡ is_some (told_domain store.now variable.now) }
{
    store.told_domain(variable).is_some()
}

fn equates_free(store: &Store, tell: &Tell) -> bool
    ensures { result ≡ equates_free store.now tell.now }
{
    match tell {
        Tell::Equal { left, right } => is_free(store, left) || is_free(store, right),
        Tell::Is { .. } => false,
        Tell::Within { .. } => false,
    }
}

/// Whether one equation is told alone, one of whose variables is free.
pub fn joins_free(store: &Store, tells: &[Tell]) -> bool
    ensures { result ≡ joins_free store.now tells.now }
{
    match tells {
        [tell] => equates_free(store, tell),
        _ => false,
    }
}

/// Whether the variable that is told something has no domain.
fn is_domainless(store: &Store, tell: &Tell) -> bool
    ensures { result ≡ is_domainless store.now tell.now }
{
    match tell {
        Tell::Equal { left, .. } => !has_domain(store, left),
        Tell::Is { variable, .. } => !has_domain(store, variable),
        Tell::Within { variable, .. } => !has_domain(store, variable),
    }
}

/// Whether no variable that is told something has a domain.
pub fn all_domainless(store: &Store, tells: &[Tell]) -> bool
    ensures { result ≡ list_all (is_domainless store.now) tells.now }
{
    tells.iter().all(|tell| is_domainless(store, tell))
}
