//! The stop with which a history ends.
ghost use Rattle.std.specs.Prelude.{◌≡◌, ◌∷◌};
ghost use Rattle.std.specs.Option.{option_or};
ghost use Rattle.oz_search.specs.Histories.{History, stop_of};

use crate::{Path, SearchKind};
use oz_search::{Entry, Halt};

/// The stop that an entry is.
fn stop_in<K: SearchKind>(entry: &Entry<Path<K>, K::Leaf>) -> Option<Halt>
    ensures { (after : History K.Branch K.Leaf) → option_or result (stop_of after) ≡ stop_of (entry.now ∷ after) }
{
    match entry {
        Entry::Claim { .. } => None,
        Entry::Split { .. } => None,
        Entry::Leaf { .. } => None,
        Entry::Stop(halt) => Some(*halt),
    }
}

/// The first stop of a history, if a worker has stopped the search.
pub fn first_stop<K: SearchKind>(entries: &[Entry<Path<K>, K::Leaf>]) -> Option<Halt>
    ensures { result ≡ stop_of entries.now }
{
    let mut rest = entries;
    'entries: while let Some((entry, further)) = rest.split_first() {
        if let Some(halt) = stop_in::<K>(entry) {
            return Some(halt);
        }
        rest = further;
    }
    None
}
