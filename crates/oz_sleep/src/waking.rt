//! Who may wake by what a thread is about to tell its space.
ghost use Rattle.std.specs.Prelude.{ℕ, ◌≡◌, ◌&&◌, ◌<◌, ◌∷◌, [], true, false, Some, length, option_copied, position, IfOk, IfSome};
ghost use Rattle.oz_base.specs.Lists.{list_eq};
ghost use Rattle.oz_base.specs.declared.names.Ident.{Ident};
ghost use Rattle.oz_semantics.specs.Answers as answers;
ghost use Rattle.oz_semantics.specs.Configurations.{is_of, view};
ghost use Rattle.oz_semantics.specs.declared.value.Value.{Value};
ghost use Rattle.oz_semantics.specs.declared.value.Tell.TheVariants.{Equal, Is};
ghost use Rattle.oz_laws.specs.Touched.{Touches};
ghost use Rattle.builtins.specs.Answers.{act_of};
ghost use Rattle.space_core.specs.Levels.{OfLayer};
ghost use Rattle.oz_sleep.specs.Laid.{Foretells, TouchesBy};

use crate::sleeping::Sleeping;
use builtins::Act;
use oz_base::{Copies, Ident, Sequence};
use space_core::Levels;
use std::alloc::{AllocError, Global};
use term_store::Store;

fn two(alloc: Global, left: Ident, right: Ident) -> Result<Vec<Ident>, AllocError>
    ensures { IfOk result (λ both. both.items ≡ left ∷ right ∷ []) }
{
    let mut both = Vec::new(alloc);
    both.push(left)?;
    both.push(right)?;
    Ok(both)
}

/// What a value that is told of a variable touches, where that has none.
fn value_touches(
    alloc: Global,
    store: &Store,
    variable: &Ident,
) -> Result<Option<Vec<Ident>>, AllocError>
    ensures { IfOk result (λ touched. IfSome touched (λ xs. (v : Value) → Touches store.now (Is variable.now v ∷ []) xs.items)) }
{
    if store.told_value(variable).is_some() {
        return Ok(None);
    }
    let mut touched = Vec::new(alloc);
    touched.push(variable.copied(alloc)?)?;
    Ok(Some(touched))
}

/// What an equation of two variables touches, where one of them has no value.
fn equation_touches(
    alloc: Global,
    store: &Store,
    left: &Ident,
    right: &Ident,
) -> Result<Option<Vec<Ident>>, AllocError>
    ensures { IfOk result (λ touched. IfSome touched (λ xs. Touches store.now (Equal left.now right.now ∷ []) xs.items)) }
{
    if store.told_value(left).is_some() && store.told_value(right).is_some() {
        return Ok(None);
    }
    Ok(Some(two(alloc, left.copied(alloc)?, right.copied(alloc)?)?))
}

/// What an equation with the content of a cell touches, where there is one.
fn content_touches(
    alloc: Global,
    store: &Store,
    variable: &Ident,
    content: Option<&Ident>,
) -> Result<Option<Vec<Ident>>, AllocError>
    ensures { IfOk result (λ touched. IfSome touched (λ xs. (y : Ident) × (option_copied content.entry ≡ Some y) × Touches store.now (Equal variable.now y ∷ []) xs.items)) }
{
    match content {
        None => Ok(None),
        Some(content) => equation_touches(alloc, store, variable, content),
    }
}

/// What a value of the end of a stream touches, where there is one.
fn end_touches(
    alloc: Global,
    store: &Store,
    end: Option<&Ident>,
) -> Result<Option<Vec<Ident>>, AllocError>
    ensures { IfOk result (λ touched. IfSome touched (λ xs. (x : Ident) × (option_copied end.entry ≡ Some x) × ((v : Value) → Touches store.now (Is x v ∷ []) xs.items))) }
{
    match end {
        None => Ok(None),
        Some(end) => value_touches(alloc, store, end),
    }
}

/// The variables that an act touches which tells one thing alone, by which no others become equal. None where it may touch more.
fn touched(
    alloc: Global,
    levels: &Levels,
    place: usize,
    what: &Act,
) -> Result<Option<Vec<Ident>>, AllocError>
    requires { place < length levels.now }
    ensures { OfLayer levels.now place (λ l. IfOk result (λ touched. IfSome touched (λ xs. TouchesBy (view levels.now l.space) l (act_of what.now) xs.items))) }
{
    let store = levels.store_at(place);
    match what {
        Act::GivesValue { variable, .. }
        | Act::MakesProcedure { variable, .. }
        | Act::MakesName { variable }
        | Act::MakesCell { variable, .. }
        | Act::MakesPort { variable, .. } => value_touches(alloc, store, variable),
        Act::GivesVariable { variable, other } => equation_touches(alloc, store, variable, other),
        Act::Reads { cell, variable } => {
            content_touches(alloc, store, variable, levels.content_at(place, *cell))
        }
        Act::Exchanges { cell, variable, .. } => {
            content_touches(alloc, store, variable, levels.content_at(place, *cell))
        }
        Act::Sends { port, .. } => end_touches(alloc, store, levels.end_at(place, *port)),
        Act::Passes
        | Act::GoesOn(_)
        | Act::Declares(_)
        | Act::Starts(_)
        | Act::GivesList { .. }
        | Act::Writes { .. }
        | Act::Delays { .. }
        | Act::Confines(_)
        | Act::Posts(_)
        | Act::Shows(_) => Ok(None),
    }
}

/// Takes those out of the sleepers of the thread's space who may wake by what is touched.
fn wake(
    alloc: Global,
    levels: &Levels,
    place: usize,
    id: &Ident,
    touched: &[Ident],
    sleeping: &mut Sleeping,
) -> Result<Option<Sequence<u64>>, AllocError>
    requires within { place < length levels.now }
    requires place { Some place ≡ position (is_of id.now.space) levels.now }
    requires awaits { (sleeping.old.pending && list_eq sleeping.old.space id.now.space) ≡ true }
    ensures known { sleeping.new.known ≡ sleeping.old.known }
    ensures foretold { (act : answers.Act) → OfLayer levels.now place (λ l. TouchesBy (view levels.now l.space) l act touched.now)
        → IfOk result (Foretells levels.now id.now act sleeping.old sleeping.new) }
{
    let woken = sleeping
        .sleepers
        .wake(alloc, levels.store_at(place), touched)?;
    Ok(Some(woken))
}

/// The numbers of the threads of its space that may wake by what an act tells alone. None where that is not known. Where the sleepers of
/// the space are not known, it is of no use to look at what the act touches.
pub fn woken(
    alloc: Global,
    levels: &Levels,
    id: &Ident,
    what: &Act,
    sleeping: &mut Sleeping,
) -> Result<Option<Sequence<u64>>, AllocError>
    ensures known { sleeping.new.known ≡ sleeping.old.known }
    ensures foretold { IfOk result (Foretells levels.now id.now (act_of what.now) sleeping.old sleeping.new) }
{
    if !sleeping.awaits(&id.space) {
        sleeping.want();
        return Ok(None);
    }
    let Some(place) = levels.place(&id.space) else {
        sleeping.drop_pending();
        return Ok(None);
    };
    match touched(alloc, levels, place, what)? {
        None => {
            sleeping.drop_pending();
            Ok(None)
        }
        Some(touched) => wake(alloc, levels, place, id, &touched, sleeping),
    }
}
