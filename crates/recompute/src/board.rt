//! The choices that the workers of a search share, so that none runs a node again that another has run.
ghost use Rattle.std.specs.Prelude.{◌≡◌, ◌<◌, Some, length, slice_get, option_map, IfOk, IfSome};
ghost use Rattle.std.specs.List.Sorted.{IsSearchInRange};
ghost use Rattle.oz_search.specs.Paths.{path_cmp};

use crate::placed::{Choice, Start};
use crate::source::Source;
use node_pool::SearchKind;
use std::alloc::{AllocError, Global};
use std::cmp::Ordering;

/// A choice, and how many of its alternatives are still to be taken.
#[derive(Drop)]
struct Entry<T: Source, S: Start<T>> {
    choice: Choice<T, S>,
    left: u32,
}

/// Choices of which an alternative is still to be taken, in the order of their paths. A choice is asked for once for each of its
/// alternatives, and leaves with the last. Were it asked for otherwise, it would only be found less often.
#[derive(Drop)]
pub struct Board<T: Source, S: Start<T>> {
    entries: Vec<Entry<T, S>>,
}

fn order<T: Source, S: Start<T>>(
    entry: &Entry<T, S>,
    path: &[<T::Kind as SearchKind>::Branch],
) -> Ordering
    ensures { result ≡ path_cmp T.Kind.search entry.now.choice path.now }
{
    entry.choice.path().compared(path)
}

/// Where the choice at this path stands, or where it would.
fn place<T: Source, S: Start<T>>(
    entries: &[Entry<T, S>],
    path: &[<T::Kind as SearchKind>::Branch],
) -> Result<usize, usize>
    ensures { IsSearchInRange result (length entries.now) }
{
    entries.binary_search_by(|entry| order(entry, path))
}

/// Where the choice at this path stands, if it does.
fn place_of<T: Source, S: Start<T>>(
    entries: &[Entry<T, S>],
    path: &[<T::Kind as SearchKind>::Branch],
) -> Option<usize>
    ensures place { IfSome result (λ at. at < length entries.now) }
    ensures path { IfSome result (λ at. option_map (λ entry. entry.choice) (slice_get entries.now at) ≡ Some path.now) }
{
    let Ok(at) = place(entries, path) else {
        return None;
    };
    if order(&entries[at], path).is_eq() {
        return Some(at);
    }
    None
}

impl<T: Source, S: Start<T>> Board<T, S> {
    /// One without choices.
    pub fn new(alloc: Global) -> Board<T, S> {
        Board {
            entries: Vec::new(alloc),
        }
    }

    /// Puts a choice there, all of whose alternatives are to be taken.
    pub fn put(&mut self, choice: Choice<T, S>) -> Result<(), AllocError> {
        let left = choice.count();
        let at = match place(self.entries.as_slice(), choice.path().as_slice()) {
            Ok(at) => at,
            Err(at) => at,
        };
        match self.entries.insert(at, Entry { choice, left }) {
            Ok(()) => Ok(()),
            Err(_) => Err(AllocError),
        }
    }

    /// The choice at this path, for one of its alternatives, if it is there.
    pub fn take(
        &mut self,
        path: &[<T::Kind as SearchKind>::Branch],
    ) -> Result<Option<Choice<T, S>>, AllocError>
        ensures { IfOk result (λ found. IfSome found (λ choice. choice ≡ path.now)) }
    {
        let Some(at) = place_of(self.entries.as_slice(), path) else {
            return Ok(None);
        };
        if self.entries[at].left <= 1 {
            let Entry { choice, left: _ } = self.entries.remove(at);
            return Ok(Some(choice));
        }
        self.entries[at].left -= 1;
        let choice = self.entries[at].choice.again()?;
        Ok(Some(choice))
    }
}
