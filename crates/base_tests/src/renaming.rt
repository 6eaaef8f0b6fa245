//! Tests of renamings.
use crate::names::space_of;
use oz_base::{Ident, SpaceName, same_space};
use renamings::{GivenOut, Kind, Renaming};
use std::alloc::{AllocError, Global};
use std::test::Fail;

fn goes(alloc: Global, renaming: &Renaming, from: &[u64], to: &[u64]) -> Result<bool, AllocError> {
    let renamed = renaming.space(alloc, &space_of(alloc, from)?)?;
    Ok(same_space(&renamed, &space_of(alloc, to)?))
}

#[test]
fn a_merge_numbers_behind_what_was_given_out(rt: HostRuntime) -> Result<(), Fail> {
    let alloc = rt.alloc();
    let renaming = Renaming::Merge {
        child: space_of(alloc, &[2])?,
        parent: SpaceName::top(),
        given: GivenOut {
            variables: 40,
            procedures: 30,
            names: 20,
            cells: 10,
            ports: 5,
            children: 3,
        },
    };
    assert!(rt; goes(alloc, &renaming, &[2, 1, 9], &[4, 9])?);
    assert!(rt; goes(alloc, &renaming, &[1, 1], &[1, 1])?);
    let inner = Ident {
        space: space_of(alloc, &[2])?,
        number: 7,
    };
    assert_eq!(rt; renaming.ident(alloc, Kind::Variable, &inner)?.number, 47);
    assert_eq!(rt; renaming.ident(alloc, Kind::Port, &inner)?.number, 12);
    let last = Ident {
        space: inner.space,
        number: u64::MAX,
    };
    assert!(rt; renaming.ident(alloc, Kind::Cell, &last).is_err());
    Ok(())
}
