//! Which thread of a space offers alternatives, and what a commitment of the space comes to (CTM 12.5; Schulte 4). What is offered does not
//! go by the states of spaces.
ghost use Rattle.std.specs.Prelude.{ℕ, ◌≡◌, ◌↔◌, ◌<◌, false, List, Some, slice_get, length, position, option_map, IsTrue, IfOk, OnErr, MatchOption};
ghost use Rattle.std.specs.List.{filter_map, find};
ghost use Rattle.oz_base.specs.Lists.{first, is_empty};
ghost use Rattle.oz_semantics.specs.Names.{named};
ghost use Rattle.oz_semantics.specs.Store.{View};
ghost use Rattle.oz_semantics.specs.Configurations.{is_numbered};
ghost use Rattle.oz_semantics.specs.Sights as sights;
ghost use Rattle.oz_semantics.specs.Sights.{Offer, count_of, offer_of};
ghost use Rattle.view_laws.specs.Spaceless.{plain_ready};
ghost use Rattle.oz_semantics.specs.Spaces.{sight};
ghost use Rattle.oz_semantics.specs.declared.configuration.Thread as running;
ghost use Rattle.builtins.specs.Answers.{IsReady};
ghost use Rattle.oz_threads.specs.Sights.{sight_of};
ghost use Rattle.space_core.specs.Levels.{OfLayer};
ghost use Rattle.stability.specs.Places.{IsAbsent, IsFirst};
ghost use Rattle.statements.specs.Offers.{IsChosen};
ghost use Rattle.stability.specs.Offers.{offers, IsChoice, GoesOnAs, Commits, HasThread};

use crate::places::place_of;
use builtins::Readiness;
use oz_base::{Copies, Ident, SpaceName};
use oz_language::Statement;
use oz_semantics::{Frame, Tell, Thread};
use oz_threads::ready_where;
use space_core::Levels;
use statements::{Chosen, alternative};
use std::alloc::{AllocError, Global};
use term_store::Store;

/// How many alternatives are offered, if any are.
fn offer_size(ready: &Readiness) -> Option<u64>
    ensures { (view : View) (defined : sights.Readiness) → IsReady view defined ready.now → result ≡ option_map count_of (offer_of defined) }
{
    match ready {
        Readiness::Offers { count, .. } => Some(*count),
        Readiness::Steps | Readiness::Waits(_) | Readiness::WaitsForState(_) => None,
    }
}

/// How many alternatives a thread of a space offers, by what the space sees.
fn size_where(
    alloc: Global,
    statements: &[Statement],
    space: &SpaceName,
    store: &Store,
    thread: &Thread,
) -> Result<Option<u64>, AllocError>
    ensures { IfOk result (λ size. size ≡ option_map count_of (offer_of (plain_ready (sight_of statements.now space.now store.now) thread.now))) }
{
    let ready = ready_where(alloc, statements, space, store, thread)?;
    Ok(offer_size(&ready))
}

/// How many alternatives the first of the threads that offer some offers.
pub fn first_size(
    alloc: Global,
    statements: &[Statement],
    space: &SpaceName,
    store: &Store,
    threads: &[Thread],
) -> Result<Option<u64>, AllocError>
    ensures { IfOk result (λ size. size ≡ option_map count_of (first (filter_map (λ t. offer_of (plain_ready (sight_of statements.now space.now store.now) t)) threads.now))) }
{
    for thread in threads {
        if let Some(size) = size_where(alloc, statements, space, store, thread)? {
            return Ok(Some(size));
        }
    }
    Ok(None)
}

fn offers_where(
    alloc: Global,
    statements: &[Statement],
    space: &SpaceName,
    store: &Store,
    thread: &Thread,
) -> Result<bool, AllocError>
    ensures { IfOk result (λ does. does ≡ offers (sight_of statements.now space.now store.now) thread.now) }
{
    let size = size_where(alloc, statements, space, store, thread)?;
    Ok(size.is_some())
}

/// The place of the first of the threads that offer alternatives.
fn offering(
    alloc: Global,
    statements: &[Statement],
    space: &SpaceName,
    store: &Store,
    threads: &[Thread],
) -> Result<Option<usize>, AllocError>
    ensures found { IfOk result (λ found. found ≡ position (offers (sight_of statements.now space.now store.now)) threads.now) }
    ensures err { OnErr result (is_empty threads.now ≡ false) }
{
    for place in 0..threads.len() {
        if offers_where(alloc, statements, space, store, &threads[place])? {
            return Ok(Some(place));
        }
    }
    Ok(None)
}

/// The place of the first of the threads that offer alternatives, and where it stands.
fn first_offering(
    alloc: Global,
    statements: &[Statement],
    space: &SpaceName,
    store: &Store,
    threads: &[Thread],
) -> Result<Option<usize>, AllocError>
    ensures found { IfOk result (λ found. MatchOption found (IsAbsent (offers (sight_of statements.now space.now store.now)) threads.now)
        (λ place. (t : running.Thread) × IsFirst (offers (sight_of statements.now space.now store.now)) threads.now place t)) }
    ensures err { OnErr result (is_empty threads.now ≡ false) }
{
    offering(alloc, statements, space, store, threads)
}

fn first_offer_where(
    alloc: Global,
    statements: &[Statement],
    space: &SpaceName,
    store: &Store,
    threads: &[Thread],
) -> Result<Option<Ident>, AllocError>
    ensures { IfOk result (λ found. found ≡ option_map (λ (t : running.Thread). named space.now t.number) (find (offers (sight_of statements.now space.now store.now)) threads.now)) }
{
    match first_offering(alloc, statements, space, store, threads)? {
        Some(place) => Ok(Some(Ident {
            space: space.copied(alloc)?,
            number: threads[place].number,
        })),
        None => Ok(None),
    }
}

/// The first thread of the space at a place that offers alternatives, which is that of least number.
pub fn first_offer(
    alloc: Global,
    statements: &[Statement],
    levels: &Levels,
    place: usize,
) -> Result<Option<Ident>, AllocError>
    requires { place < length levels.now }
    ensures { OfLayer levels.now place (λ l. IfOk result (λ found. found ≡ option_map (λ (t : running.Thread). named l.space t.number) (find (offers (sight statements.now levels.now l.space)) l.threads))) }
{
    let space = levels.space_at(place);
    let store = levels.store_at(place);
    first_offer_where(alloc, statements, space, store, levels.threads_at(place))
}

/// What a commitment of a space comes to.
#[derive(Drop)]
pub enum Choice {
    /// No thread of it offers anything.
    Nothing,
    /// Other statements come in the place of the one on top of this thread's stack.
    GoesOn { thread: Ident, frames: Vec<Frame> },
    /// The space is told this.
    Tells { tell: Tell },
}

/// What a commitment to an alternative that a thread offers does, by its number from 1.
fn alternative_of(
    alloc: Global,
    statements: &[Statement],
    store: &Store,
    thread: &Thread,
    index: u64,
) -> Result<Chosen, AllocError>
    ensures { IfOk result (λ what. (space : List ℕ) (offer : Offer) → offer_of (plain_ready (sight_of statements.now space store.now) thread.now) ≡ Some offer
        → IsChosen index thread.now.frames offer what) }
{
    match thread.frames.top() {
        Some(frame) => alternative(alloc, statements, store, frame, index),
        None => Ok(Chosen::GoesOn(Vec::new(alloc))),
    }
}

fn numbered(threads: &[Thread], number: u64) -> Option<usize>
    ensures { result ≡ position (is_numbered number) threads.now }
{
    threads.iter().position(|thread| thread.number == number)
}

/// Whether the thread at a place is the first of its number.
fn is_first_numbered(threads: &[Thread], place: usize) -> bool
    requires { place < length threads.now }
    ensures { (t : running.Thread) → slice_get threads.now place ≡ Some t → (IsTrue result ↔ (position (is_numbered t.number) threads.now ≡ Some place)) }
{
    match numbered(threads, threads[place].number) {
        Some(first) => first == place,
        None => false,
    }
}

/// The choice that the thread at a place, which is the first that offers, goes on with these statements. It refuses where an earlier thread
/// has its number.
fn going_on(
    alloc: Global,
    space: &SpaceName,
    threads: &[Thread],
    place: usize,
    frames: Vec<Frame>,
) -> Result<Choice, AllocError>
    requires { place < length threads.now }
    ensures { (t : running.Thread) → slice_get threads.now place ≡ Some t → IfOk result (GoesOnAs space.now t (position (is_numbered t.number) threads.now ≡ Some place) frames.items) }
{
    if !is_first_numbered(threads, place) {
        return Err(AllocError);
    }
    let number = threads[place].number;
    let space = space.copied(alloc)?;
    let thread = Ident { space, number };
    Ok(Choice::GoesOn { thread, frames })
}

/// The choice of an alternative that the thread at a place offers, the first that offers.
fn choice_at(
    alloc: Global,
    statements: &[Statement],
    space: &SpaceName,
    store: &Store,
    threads: &[Thread],
    place: usize,
    index: u64,
) -> Result<Choice, AllocError>
    requires { place < length threads.now }
    ensures { (t : running.Thread) → IsFirst (offers (sight_of statements.now space.now store.now)) threads.now place t → IfOk result (IsChoice (sight_of statements.now space.now store.now) index threads.now) }
{
    let what = alternative_of(alloc, statements, store, &threads[place], index)?;
    match what {
        Chosen::GoesOn(frames) => going_on(alloc, space, threads, place, frames),
        Chosen::Tells(tell) => Ok(Choice::Tells { tell }),
    }
}

fn choice_where(
    alloc: Global,
    statements: &[Statement],
    space: &SpaceName,
    store: &Store,
    threads: &[Thread],
    index: u64,
) -> Result<Choice, AllocError>
    ensures choice { IfOk result (IsChoice (sight_of statements.now space.now store.now) index threads.now) }
    ensures err { OnErr result (is_empty threads.now ≡ false) }
{
    let Some(place) = first_offering(alloc, statements, space, store, threads)? else {
        return Ok(Choice::Nothing);
    };
    choice_at(alloc, statements, space, store, threads, place, index)
}

/// What committing a space to its alternative of this index, from 1, comes to; nothing where it offers none. Besides for want of
/// memory it refuses where an earlier thread of the space has the number of the one that goes on: a machine gives no number twice. Of a
/// space that is not there, or has no thread, it refuses nothing.
pub fn chosen(
    alloc: Global,
    statements: &[Statement],
    levels: &Levels,
    space: &SpaceName,
    index: u64,
) -> Result<Choice, AllocError>
    ensures commits { IfOk result (Commits statements.now levels.now space.now index) }
    ensures err { OnErr result (HasThread levels.now space.now) }
{
    let Some(place) = place_of(levels, space) else {
        return Ok(Choice::Nothing);
    };
    let space = levels.space_at(place);
    let store = levels.store_at(place);
    let threads = levels.threads_at(place);
    choice_where(alloc, statements, space, store, threads, index)
}
