//! What a store decides of an equation without its being told.
ghost use Rattle.std.specs.Prelude.{◌≡◌, ◌||◌, ◌∷◌, [], not, filter, IfOk};
ghost use Rattle.oz_semantics.specs.Store.{value_of, told_domain, is_determined};
ghost use Rattle.tree_equal.specs.Answers.{Decides, is_bare};

use oz_base::{Copies, Ident};
use std::alloc::{AllocError, Global};
use term_store::{Store, fields_of, is_like};

/// Whether two variables are equal, where their values tell it without their fields.
pub fn at_once(store: &Store, left: &Ident, right: &Ident) -> Option<bool>
    ensures { Decides (value_of store.now left.now) (value_of store.now right.now) result }
{
    let value = store.value(left)?;
    let other = store.value(right)?;
    if !is_like(value, other) {
        return Some(false);
    }
    if fields_of(value).is_empty() {
        Some(true)
    } else {
        None
    }
}

/// Whether a variable has neither a value nor a domain, so that it can be equal to any other.
fn is_bare(store: &Store, variable: &Ident) -> bool
    ensures { result ≡ is_bare (value_of store.now variable.now) (told_domain store.now variable.now) }
{
    match (store.value(variable), store.told_domain(variable)) {
        (None, None) => true,
        _ => false,
    }
}

/// Whether one of two variables has neither a value nor a domain.
pub fn one_is_bare(store: &Store, left: &Ident, right: &Ident) -> bool
    ensures { result ≡ (is_bare (value_of store.now left.now) (told_domain store.now left.now) || is_bare (value_of store.now right.now) (told_domain store.now right.now)) }
{
    is_bare(store, left) || is_bare(store, right)
}

/// Those of two variables that have no value.
pub fn undetermined(
    alloc: Global,
    store: &Store,
    left: &Ident,
    right: &Ident,
) -> Result<Vec<Ident>, AllocError>
    ensures { IfOk result (λ free. free.items ≡ filter (λ x. not (is_determined store.now x)) (left.now ∷ right.now ∷ [])) }
{
    let mut free = Vec::new(alloc);
    if !store.is_determined(left) {
        free.push(left.copied(alloc)?)?;
    }
    if !store.is_determined(right) {
        free.push(right.copied(alloc)?)?;
    }
    Ok(free)
}
