//! What the history of a search says at its end.
ghost use Rattle.std.specs.Prelude.{◌≡◌, ℕ, List, Some, None, Ok, IfOk, map};
ghost use Rattle.oz_search.specs.Leaves.{Names, leaf_of, leaf_at_place};
ghost use Rattle.oz_search.specs.Plain.{outcomes};
ghost use Rattle.oz_search.specs.declared.leaf.Outcome.{Outcome as Leaf};
ghost use Rattle.recompute.specs.Origins.{Origin};
ghost use Rattle.search_all.specs.Answers.{leaves_in, answer_of, Closes};
ghost use Rattle.search_crew.specs.Crews.{WantsSteps};

use node_pool::{Ended, Path, Plain, first_stop};
use oz_base::{Copies, Sequence};
use oz_search::{Entry, Outcome, StopCause};
use std::alloc::{AllocError, Global};
use std::collections::BTreeMap;

fn copy_of(alloc: Global, outcome: &Outcome) -> Result<Outcome, AllocError>
    ensures { IfOk result (λ copy. copy ≡ outcome.now) }
{
    match outcome {
        Outcome::Failed => Ok(Outcome::Failed),
        Outcome::Solved(text) => Ok(Outcome::Solved(text.copied(alloc)?)),
        Outcome::Stuck(text) => Ok(Outcome::Stuck(text.copied(alloc)?)),
        Outcome::Raised(text) => Ok(Outcome::Raised(text.copied(alloc)?)),
        Outcome::Suspended => Ok(Outcome::Suspended),
    }
}

/// The leaf that an entry is.
fn leaf_in(alloc: Global, entry: &Entry<Path<Plain>, Outcome>) -> Result<Outcome, AllocError>
    requires { (x : List ℕ × Leaf) × (leaf_of outcomes entry.now ≡ Some x) }
    ensures { (x : List ℕ × Leaf) → leaf_of outcomes entry.now ≡ Some x → IfOk result (λ leaf. leaf ≡ x.1) }
{
    match entry {
        Entry::Leaf { leaf, .. } => copy_of(alloc, leaf),
        Entry::Claim { .. } => unreachable!(),
        Entry::Split { .. } => unreachable!(),
        Entry::Stop(_) => unreachable!(),
    }
}

/// The leaf that stands at a place of a history.
fn leaf_at(
    alloc: Global,
    entries: &[Entry<Path<Plain>, Outcome>],
    place: usize,
) -> Result<Outcome, AllocError>
    requires { (x : List ℕ × Leaf) × (leaf_at_place outcomes entries.now place ≡ Some x) }
    ensures { (x : List ℕ × Leaf) → leaf_at_place outcomes entries.now place ≡ Some x → IfOk result (λ leaf. leaf ≡ x.1) }
{
    let Some(entry) = entries.get(place) else {
        unreachable!()
    };
    leaf_in(alloc, entry)
}

/// The leaves that stand at these places of a history, in the order of their paths.
fn leaves_at(
    alloc: Global,
    entries: &[Entry<Path<Plain>, Outcome>],
    places: &mut BTreeMap<Path<Plain>, usize>,
) -> Result<Sequence<Outcome>, AllocError>
    requires { (ls : List (List ℕ × Leaf)) × Names outcomes entries.now places.old.entries ls }
    ensures { (ls : List (List ℕ × Leaf)) → Names outcomes entries.now places.old.entries ls → IfOk result (λ leaves. leaves ≡ map (λ (x : List ℕ × Leaf). x.1) ls) }
{
    let mut leaves = Sequence::new(alloc);
    'places: while let Some((_path, place)) = places.pop_first() {
        leaves.push(leaf_at(alloc, entries, place)?)?;
    }
    Ok(leaves)
}

/// The leaves that a search found, or `None` where there were too few steps for it.
pub fn found(alloc: Global, ended: Ended<Plain>) -> Result<Option<Sequence<Outcome>>, AllocError>
    requires { Names outcomes ended.entries.items ended.leaves.entries (leaves_in ended.entries.items) }
    ensures found { (o : Origin) → Closes o ended.entries.items → IfOk result (λ found. found ≡ answer_of o) }
    ensures spent { WantsSteps ended.entries.items → result ≡ Ok None }
{
    let Ended {
        entries,
        mut leaves,
    } = ended;
    match first_stop(entries.as_slice()) {
        None => Ok(Some(leaves_at(alloc, entries.as_slice(), &mut leaves)?)),
        Some(halt) => match halt.cause {
            StopCause::Memory => Err(AllocError),
            StopCause::Fuel => Ok(None),
            StopCause::Total(_) => Ok(None),
        },
    }
}
