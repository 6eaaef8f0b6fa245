//! Which triggers of a space are needed.
ghost use Rattle.std.specs.Prelude.{◌≡◌, ◌<◌, false, length, map, is_some, IfOk, OnOk};
ghost use Rattle.std.specs.List.{list_any, flat_map};
ghost use Rattle.oz_semantics.specs.Store.{View, same, domain_of};
ghost use Rattle.oz_semantics.specs.Configurations.{is_open, view};
ghost use Rattle.oz_semantics.specs.Sights as sights;
ghost use Rattle.oz_semantics.specs.Sights.{waits_of};
ghost use Rattle.oz_semantics.specs.Spaces.{ready_in, states_of};
ghost use Rattle.oz_semantics.specs.Triggers.{is_needed, is_needed_in};
ghost use Rattle.builtins.specs.Answers.{IsReady};
ghost use Rattle.space_core.specs.Levels.{OfLayer};
ghost use Rattle.stability.specs.Known.{known, Serves};
ghost use Rattle.tree_equal.specs.Answers.{SameClasses};
ghost use Rattle.by_need.specs.Waited.{AddsClasses};

use builtins::Readiness;
use oz_base::{Ident, Sequence};
use oz_language::Statement;
use oz_semantics::{Status, Thread, Trigger};
use space_core::Levels;
use stability::{States, ready_in};
use std::alloc::{AllocError, Global};
use term_store::Store;

/// Whether the variable is equal to one of these.
fn is_waited(store: &Store, variable: &Ident, waited: &[Ident]) -> bool
    ensures { result ≡ list_any (same store.now variable.now) waited.now }
{
    waited.iter().any(|other| store.same(variable, other))
}

fn has_domain(store: &Store, variable: &Ident) -> bool
    ensures { result ≡ is_some (domain_of store.now variable.now) }
{
    store.domain(variable).is_some()
}

fn is_needed(store: &Store, trigger: &Trigger, waited: &[Ident]) -> bool
    ensures { result ≡ is_needed store.now waited.now trigger.now }
{
    store.is_determined(&trigger.variable)
        || has_domain(store, &trigger.variable)
        || is_waited(store, &trigger.variable, waited)
}

/// Which of these triggers are needed, for the variables that threads of their space wait for: those whose variable is determined, has a
/// domain, or is equal to one of these. A mark for each, in their order.
pub fn needed(
    alloc: Global,
    store: &Store,
    triggers: &[Trigger],
    waited: &[Ident],
) -> Result<Sequence<bool>, AllocError>
    ensures { IfOk result (λ marks. marks ≡ map (is_needed store.now waited.now) triggers.now) }
{
    let mut marks = Sequence::new(alloc);
    for trigger in triggers {
        marks.push(is_needed(store, trigger, waited))?;
    }
    Ok(marks)
}

/// No mark for each of these triggers.
fn unneeded(alloc: Global, triggers: &[Trigger]) -> Result<Sequence<bool>, AllocError>
    ensures { IfOk result (λ marks. marks ≡ map (λ t. false) triggers.now) }
{
    let mut marks = Sequence::new(alloc);
    'marks: for _trigger in triggers {
        marks.push(false)?;
    }
    Ok(marks)
}

/// Adds the variables that are waited for.
fn add_waits(waited: &mut Sequence<Ident>, ready: Readiness) -> Result<(), AllocError>
    ensures { OnOk result ((view : View) (defined : sights.Readiness) → IsReady view defined ready → AddsClasses view (waits_of defined) waited.old waited.new) }
{
    match ready {
        Readiness::Waits(waits) => waited.append(waits.into_vec()),
        Readiness::Offers { waits, .. } => waited.append(waits.into_vec()),
        Readiness::Steps | Readiness::WaitsForState(_) => Ok(()),
    }
}

/// The variables that these threads of the space at a place wait for, by the states that are known; each class by any variable of it, and
/// as often as it is waited for.
fn waited_in(
    alloc: Global,
    statements: &[Statement],
    levels: &Levels,
    states: &States,
    place: usize,
    threads: &[Thread],
) -> Result<Sequence<Ident>, AllocError>
    requires { place < length levels.now }
    ensures { OfLayer levels.now place (λ l. IfOk result (λ waited. SameClasses (view levels.now l.space) waited (flat_map (λ t. waits_of (ready_in statements.now levels.now (known levels.now states.now) l.space t)) threads.now))) }
{
    let mut waited = Sequence::new(alloc);
    for thread in threads {
        let ready = ready_in(alloc, statements, levels, states, place, thread)?;
        add_waits(&mut waited, ready)?;
    }
    Ok(waited)
}

/// Which triggers of the space at a place, which is open, are needed for what these threads of it wait for.
fn needed_for(
    alloc: Global,
    statements: &[Statement],
    levels: &Levels,
    states: &States,
    place: usize,
    threads: &[Thread],
    triggers: &[Trigger],
) -> Result<Sequence<bool>, AllocError>
    requires { place < length levels.now }
    ensures { OfLayer levels.now place (λ l. IfOk result (λ marks. marks ≡ map (is_needed (view levels.now l.space) (flat_map (λ t. waits_of (ready_in statements.now levels.now (known levels.now states.now) l.space t)) threads.now)) triggers.now)) }
{
    let waited = waited_in(alloc, statements, levels, states, place, threads)?;
    needed(alloc, levels.store_at(place), triggers, waited.as_slice())
}

fn is_open(status: &Status) -> bool
    ensures { result ≡ is_open status.now }
{
    matches!(status, Status::Open)
}

/// Which triggers of the space at a place are needed, by the states by which all threads go. A space that is not open needs none.
pub fn needed_at(
    alloc: Global,
    statements: &[Statement],
    levels: &Levels,
    states: &States,
    place: usize,
) -> Result<Sequence<bool>, AllocError>
    requires { place < length levels.now }
    ensures { Serves statements.now levels.now (known levels.now states.now) (states_of statements.now levels.now)
        → OfLayer levels.now place (λ l. IfOk result (λ marks. marks ≡ map (is_needed_in statements.now levels.now l) l.triggers)) }
{
    let triggers = levels.triggers_at(place);
    if is_open(levels.status_at(place)) {
        return needed_for(
            alloc,
            statements,
            levels,
            states,
            place,
            levels.threads_at(place),
            triggers,
        );
    }
    unneeded(alloc, triggers)
}
