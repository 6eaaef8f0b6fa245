//! Whether two variables are equal, as far as a store says (CTM 2.8.2).
ghost use Rattle.std.specs.Prelude.{◌≡◌, List, IfOk};
ghost use Rattle.oz_semantics.specs.Entailment.{equality};
ghost use Rattle.oz_semantics.specs.declared.value.Tell.{Tell};
ghost use Rattle.tree_equal.specs.Answers.{IsEquality, decided_as, unless};

use crate::affected::affected;
use crate::at_once::{at_once, one_is_bare, undetermined};
use oz_base::{Ident, Sequence};
use std::alloc::{AllocError, Global};
use term_store::Store;

/// What a store says of an equation.
#[derive(Drop)]
pub enum Equality {
    /// It holds, and leaves the store as it is.
    Entailed,
    /// The store would be inconsistent with it.
    Contradicted,
    /// It would bind or merge the classes of these variables, which have no value.
    Undecided(Sequence<Ident>),
}

fn decided(equal: bool) -> Equality
    ensures { (view : List Tell) → IsEquality view (decided_as equal) result }
{
    if equal {
        Equality::Entailed
    } else {
        Equality::Contradicted
    }
}

/// What is said of an equation that does not clash, by the variables that wait.
fn unless(waits: Vec<Ident>) -> Equality
    ensures { result ≡ unless waits.items }
{
    if waits.is_empty() {
        Equality::Entailed
    } else {
        Equality::Undecided(Sequence::from_vec(waits))
    }
}

/// Whether two variables are equal. It refuses where there is no memory. The fields of two classes are compared once, so that it
/// ends on trees without end too. Where the values of the two do not decide it, it is told to a copy of the store.
pub fn test(
    alloc: Global,
    store: &Store,
    left: &Ident,
    right: &Ident,
) -> Result<Equality, AllocError>
    ensures { IfOk result (IsEquality store.now (equality store.now left.now right.now)) }
{
    store.consistent();
    if store.same(left, right) {
        return Ok(Equality::Entailed);
    }
    if let Some(equal) = at_once(store, left, right) {
        return Ok(decided(equal));
    }
    if one_is_bare(store, left, right) {
        return Ok(unless(undetermined(alloc, store, left, right)?));
    }
    match affected(alloc, store, left, right)? {
        None => Ok(Equality::Contradicted),
        Some(waits) => Ok(unless(waits)),
    }
}
