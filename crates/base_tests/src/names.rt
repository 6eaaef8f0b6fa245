//! Names that the tests use.
use oz_base::{Ident, SpaceName};
use std::alloc::{AllocError, Global};

/// A name that the top gave out.
pub fn of_top(number: u64) -> Ident {
    Ident {
        space: SpaceName::top(),
        number,
    }
}

/// The space that these numbers lead to from the top.
pub fn space_of(alloc: Global, numbers: &[u64]) -> Result<SpaceName, AllocError> {
    let mut space = SpaceName::top();
    for number in numbers {
        space = space.child(alloc, *number)?;
    }
    Ok(space)
}
