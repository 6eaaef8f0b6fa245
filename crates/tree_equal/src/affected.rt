//! What an equation affects: it is told to a copy of the store, and the classes that this touches are compared.
ghost use Rattle.std.specs.Prelude.{◌≡◌, ◌&&◌, ◌||◌, not, filter, OnOk, IfOk};
ghost use Rattle.std.specs.List.{list_any};
ghost use Rattle.std.specs.Option.{option_map};
ghost use Rattle.oz_base.specs.Names.{ident_eq};
ghost use Rattle.oz_base.specs.declared.names.Ident.{Ident};
ghost use Rattle.oz_semantics.specs.Entailment.{equality};
ghost use Rattle.oz_semantics.specs.Store.{same, is_determined};
ghost use Rattle.oz_semantics.specs.declared.value.Tell.TheVariants.{Equal};
ghost use Rattle.term_store.specs.Classes.{root_in};
ghost use Rattle.tree_equal.specs.Answers.{IsFound};
ghost use Rattle.tree_equal.specs.Grown.{has_grown, awaits};

use indexmap::IndexSet;
use oz_base::{Copies, Ident};
use oz_semantics::Tell;
use std::alloc::{AllocError, Global};
use term_store::{Classes, Store};

/// Notes the variable that stands for the class of another one now, if the two were not equal.
fn note(
    alloc: Global,
    store: &Store,
    root: &Ident,
    variable: &Ident,
    grown: &mut IndexSet<Ident>,
) -> Result<(), AllocError>
    ensures { OnOk result ((z : Ident) → list_any (ident_eq z) grown.new.keys ≡ (list_any (ident_eq z) grown.old.keys || (ident_eq z root.now && not (same store.now variable.now root.now)))) }
{
    if !store.same(variable, root) {
        grown.insert(root.copied(alloc)?)?;
    }
    Ok(())
}

/// The variables that stand for classes which have grown, by those of these variables.
fn grown(
    alloc: Global,
    store: &Store,
    after: &Classes,
    touched: &[Ident],
) -> Result<IndexSet<Ident>, AllocError>
    ensures { IfOk result (λ grown. (z : Ident) → list_any (ident_eq z) grown.keys ≡ has_grown store.now after.now touched.now z) }
{
    let mut grown = IndexSet::new(alloc);
    for variable in touched {
        note(alloc, store, after.root(variable), variable, &mut grown)?;
    }
    Ok(grown)
}

/// Whether a variable has no value, and is of a class that has grown.
fn waits(store: &Store, after: &Classes, grown: &IndexSet<Ident>, variable: &Ident) -> bool
    ensures { result ≡ (not (is_determined store.now variable.now) && list_any (ident_eq (root_in after.now variable.now)) grown.now.keys) }
{
    !store.is_determined(variable) && grown.contains(after.root(variable))
}

/// Those of these variables that wait.
fn waiting(
    alloc: Global,
    store: &Store,
    after: &Classes,
    touched: &[Ident],
) -> Result<Vec<Ident>, AllocError>
    ensures { IfOk result (λ waits. waits.items ≡ filter (awaits store.now after.now touched.now) touched.now) }
{
    let grown = grown(alloc, store, after, touched)?;
    let mut waiting = Vec::new(alloc);
    for variable in touched {
        if waits(store, after, &grown, variable) {
            waiting.push(variable.copied(alloc)?)?;
        }
    }
    Ok(waiting)
}

fn equation(alloc: Global, left: &Ident, right: &Ident) -> Result<Tell, AllocError>
    ensures { IfOk result (λ tell. tell ≡ Equal left.now right.now) }
{
    Ok(Tell::Equal {
        left: left.copied(alloc)?,
        right: right.copied(alloc)?,
    })
}

/// The variables that wait until an equation is decided, which is told to a copy of the store, unless that is inconsistent with it.
fn found_by(
    alloc: Global,
    store: &Store,
    copy: &mut Store,
    left: &Ident,
    right: &Ident,
) -> Result<Option<Vec<Ident>>, AllocError>
    requires { copy.old ≡ store.now }
    ensures { IfOk result (λ found. IsFound store.now (equality store.now left.now right.now) (option_map (λ waits. waits.items) found)) }
{
    let tells = [equation(alloc, left, right)?];
    let mut touched = Vec::new(alloc);
    if !copy.tell(alloc, &tells, &mut touched)? {
        return Ok(None);
    }
    let waits = waiting(alloc, store, copy.classes(), touched.as_slice())?;
    Ok(Some(waits))
}

/// The variables that wait until an equation is decided, unless the store is inconsistent with it.
pub fn affected(
    alloc: Global,
    store: &Store,
    left: &Ident,
    right: &Ident,
) -> Result<Option<Vec<Ident>>, AllocError>
    ensures { IfOk result (λ found. IsFound store.now (equality store.now left.now right.now) (option_map (λ waits. waits.items) found)) }
{
    let mut copy = store.copied(alloc)?;
    found_by(alloc, store, &mut copy, left, right)
}
