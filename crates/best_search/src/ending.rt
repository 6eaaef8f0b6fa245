//! What the history of a search for a best solution says at its end.
ghost use Rattle.std.specs.Prelude.{◌≡◌, ◌+◌, ◌≤◌, ◌^◌, ℕ, List, Some, None, IfOk, IsOk, IfSome, IfNone};
ghost use Rattle.oz_search.specs.Histories.{Replays, steps_of, total_of, stop_of};
ghost use Rattle.oz_search.specs.Best as bests;
ghost use Rattle.oz_search.specs.Best.{best};
ghost use Rattle.oz_replies.specs.BestReplies.{solved, HasSolution};
ghost use Rattle.search_crew.specs.Crews.{WantsSteps};
ghost use Rattle.best_search.specs.Found.{IsSolution, IsFoundIn};

use oz_base::{Copies, Sequence};
use oz_search::{Costed, Entry, Outcome, StopCause};
use pool_state::{Best, Ended, Path, SearchKind, first_stop};
use std::alloc::{AllocError, Global};

/// What a search for a best solution has found.
#[derive(Drop)]
pub enum Found {
    /// The text of a solution of the least cost, and that cost.
    Best {
        text: Sequence<u8>,
        cost: i128,
    },
    /// There is no solution.
    NoSolution,
    /// There were too few steps: so many in all are above the budget, as the history shows.
    Spent {
        total: u64,
        entries: Vec<Entry<Path<Best>, Costed>>,
    },
}

type BestEntry = Entry<Path<Best>, Costed>;

/// The steps that an entry adds.
fn steps_of(entry: &BestEntry) -> u64
    ensures { result ≡ steps_of entry.now }
{
    match entry {
        Entry::Claim { .. } => 0,
        Entry::Split { steps, .. } => *steps,
        Entry::Leaf { steps, .. } => *steps,
        Entry::Stop(_) => 0,
    }
}

/// The steps of all entries.
fn total_of(entries: &[BestEntry]) -> u64
    requires { total_of entries.now ≤ 2 ^ 48 }
    ensures { result ≡ total_of entries.now }
{
    let mut total = 0;
    let mut rest = entries;
    'entries: while let Some((entry, further)) = rest.split_first() {
        total += steps_of(entry);
        rest = further;
    }
    total
}

/// The least cost after one entry more.
fn best_after(least: Option<i128>, entry: &BestEntry) -> Option<i128>
    ensures { result ≡ bests.best_after least entry.now }
{
    match entry {
        Entry::Claim { .. } => least,
        Entry::Split { .. } => least,
        Entry::Leaf { leaf, .. } => Best::more(least, leaf),
        Entry::Stop(_) => least,
    }
}

/// The least cost of the solved leaves of a history.
fn best_of(entries: &[BestEntry]) -> Option<i128>
    ensures { result ≡ bests.best_of entries.now }
{
    entries.iter().fold(None, best_after)
}

/// The text of a leaf that is solved with this cost.
fn text_of(leaf: &Costed, cost: i128) -> Option<&Sequence<u8>>
    ensures some { IfSome result (λ text. leaf.now ≡ solved text.now cost) }
    ensures none { IfNone result ((text : List ℕ) → leaf.now ≡ solved text cost → ⊥) }
{
    let Outcome::Solved(text) = &leaf.outcome else {
        return None;
    };
    if leaf.cost == Some(cost) {
        Some(text)
    } else {
        None
    }
}

/// The text of an entry that is such a leaf.
fn text_in(entry: &BestEntry, cost: i128) -> Option<&Sequence<u8>>
    ensures some { IfSome result (λ text. IsSolution text.now cost entry.now) }
    ensures none { IfNone result ((text : List ℕ) → IsSolution text cost entry.now → ⊥) }
{
    match entry {
        Entry::Claim { .. } => None,
        Entry::Split { .. } => None,
        Entry::Leaf { leaf, .. } => text_of(leaf, cost),
        Entry::Stop(_) => None,
    }
}

/// The text of the first leaf of a history that is solved with this cost.
fn solution(alloc: Global, entries: &[BestEntry], cost: i128) -> Result<Sequence<u8>, AllocError>
    requires { (text : List ℕ) × HasSolution entries.now text cost }
    ensures { IfOk result (λ text. HasSolution entries.now text cost) }
{
    let mut rest = entries;
    'entries: while let Some((entry, further)) = rest.split_first() {
        if let Some(text) = text_in(entry, cost) {
            return text.copied(alloc);
        }
        rest = further;
    }
    unreachable!()
}

/// What a history has found in which nobody stopped.
fn best_in(alloc: Global, entries: &[BestEntry]) -> Result<Found, AllocError>
    requires { stop_of entries.now ≡ None }
    ensures { (budget : ℕ) → IfOk result (λ found. IsFoundIn budget entries.now found) }
{
    let Some(cost) = best_of(entries) else {
        return Ok(Found::NoSolution);
    };
    let text = solution(alloc, entries, cost)?;
    Ok(Found::Best { text, cost })
}

/// What a search for a best solution with this budget has found, by its history. It refuses where a worker stopped for want of memory.
pub fn found_in(alloc: Global, ended: Ended<Best>, budget: u64) -> Result<Found, AllocError>
    requires small { budget ≤ 2 ^ 48 }
    requires replays { Replays best budget ended.entries.items }
    ensures found { IfOk result (λ found. IsFoundIn budget ended.entries.items found) }
    ensures served { WantsSteps ended.entries.items → IsOk result }
{
    let Ended { entries, leaves: _ } = ended;
    match first_stop(entries.as_slice()) {
        None => best_in(alloc, entries.as_slice()),
        Some(halt) => match halt.cause {
            StopCause::Memory => Err(AllocError),
            StopCause::Fuel => {
                let total = total_of(entries.as_slice()) + budget + 1;
                Ok(Found::Spent { total, entries })
            }
            StopCause::Total(total) => Ok(Found::Spent { total, entries }),
        },
    }
}
