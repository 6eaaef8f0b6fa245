//! Tests of cells_ports.
use crate::names::of_top;
use cells_ports::Objects;
use oz_base::{Copies, Ident};
use std::test::Fail;

/// Its number, and 0 where there is none.
fn number_of(id: Option<&Ident>) -> u64 {
    match id {
        Some(id) => id.number,
        None => 0,
    }
}

#[test]
fn a_cell_is_written_and_a_port_moves_its_end(rt: HostRuntime) -> Result<(), Fail> {
    let alloc = rt.alloc();
    let mut objects = Objects::new();
    objects.add_cell(alloc, of_top(5))?;
    objects.add_port(alloc, of_top(6))?;
    let copy = objects.copied(alloc)?;
    objects.assign(alloc, 0, of_top(7))?;
    objects.end_at(alloc, 0, of_top(8))?;
    objects.end_at(alloc, 1, of_top(9))?;
    assert_eq!(rt; objects.port_count(), 1);
    assert_eq!(rt; number_of(objects.content(0)), 7);
    assert_eq!(rt; number_of(objects.end(0)), 8);
    assert_eq!(rt; number_of(copy.content(0)), 5);
    assert_eq!(rt; number_of(copy.end(0)), 6);
    Ok(())
}
