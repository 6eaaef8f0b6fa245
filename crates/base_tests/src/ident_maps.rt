//! Tests of ident_map.
use crate::names::{of_top, space_of};
use ident_map::IdentMap;
use oz_base::{Copies, Ident};
use std::alloc::{AllocError, Global};
use std::test::Fail;

/// What a name has in a map after two writes, and in a copy that was written since.
fn written(alloc: Global, x: &Ident) -> Result<(Option<u64>, Option<u64>), AllocError> {
    let mut map = IdentMap::new(alloc);
    map.insert(alloc, x, 50)?;
    map.insert(alloc, x, 51)?;
    let mut copy = map.copied(alloc)?;
    copy.insert(alloc, x, 20)?;
    Ok((map.get(x).copied(), copy.get(x).copied()))
}

#[test]
fn a_copy_is_written_apart(rt: HostRuntime) -> Result<(), Fail> {
    let alloc = rt.alloc();
    let inner = Ident {
        space: space_of(alloc, &[3])?,
        number: 5,
    };
    assert_eq!(rt; written(alloc, &of_top(5))?, (Some(51), Some(20)));
    assert_eq!(rt; written(alloc, &inner)?, (Some(51), Some(20)));
    let mut map = IdentMap::new(alloc);
    map.insert(alloc, &inner, 1u64)?;
    assert_eq!(rt; map.get(&of_top(5)).copied(), None);
    Ok(())
}
