//! A copy under other names.
ghost use Rattle.std.specs.Prelude.{◌≡◌, IfOk, map, reverse};
ghost use Rattle.oz_semantics.specs.Renamings as meant;
ghost use Rattle.renamed_terms.specs.Meanings.{renaming_of};

use oz_base::{Ident, Sequence, Stack};
use renamings::{Kind, Renaming};
use std::alloc::{AllocError, Global};

/// What has names of spaces in it, or names of what is in them.
pub trait Renamed: Drop {
    /// The same under the new names.
    ghost renamed: { meant.Renaming → Self → Self };

    /// The same under the new names. It shares records and the older parts of environments that keep their names, and refuses a number above 2^64 - 1.
    fn renamed(&self, alloc: Global, by: &Renaming) -> Result<Self, AllocError>
        ensures { IfOk result (λ after. after ≡ renamed (renaming_of by.now) self.now) };
}

/// A variable.
impl Renamed for Ident {
    ghost renamed = { λ r. r.variable };

    fn renamed(&self, alloc: Global, by: &Renaming) -> Result<Self, AllocError> {
        by.ident(alloc, Kind::Variable, self)
    }
}

fn renamed_items<T: Renamed>(
    alloc: Global,
    by: &Renaming,
    items: &[T],
) -> Result<Vec<T>, AllocError>
    ensures { IfOk result (λ after. after.items ≡ map (T.renamed (renaming_of by.now)) items.now) }
{
    let mut after = Vec::new(alloc);
    for item in items {
        after.push(item.renamed(alloc, by)?)?;
    }
    Ok(after)
}

fn renamed_stack<T: Renamed>(
    alloc: Global,
    by: &Renaming,
    from_bottom: &[T],
) -> Result<Stack<T>, AllocError>
    ensures { IfOk result (λ after. after ≡ map (T.renamed (renaming_of by.now)) (reverse from_bottom.now)) }
{
    let mut after = Stack::new(alloc);
    for item in from_bottom {
        after.push(item.renamed(alloc, by)?)?;
    }
    Ok(after)
}

/// Each item.
impl<T: Renamed> Renamed for Sequence<T> {
    ghost renamed = { λ r. map (T.renamed r) };

    fn renamed(&self, alloc: Global, by: &Renaming) -> Result<Self, AllocError> {
        Ok(Sequence::from_vec(renamed_items(alloc, by, self.as_slice())?))
    }
}

/// Each item.
impl<T: Renamed> Renamed for Stack<T> {
    ghost renamed = { λ r. map (T.renamed r) };

    fn renamed(&self, alloc: Global, by: &Renaming) -> Result<Self, AllocError> {
        renamed_stack(alloc, by, self.from_bottom())
    }
}
