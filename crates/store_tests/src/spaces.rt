//! Tests of operations.
use crate::stores::{integer, told, tuple, variable};
use operations::{COPY_LIMIT, read_term};
use oz_language::Literal;
use std::alloc::{AllocError, Global};
use std::test::Fail;

/// How many nodes are read of a record with so many fields, which are the variable of this number. The record is variable 2.
fn nodes_read(alloc: Global, count: usize, field: u64) -> Result<Option<usize>, AllocError> {
    let fields = Vec::from_elem(alloc, field, count)?;
    let record = tuple(alloc, 2, Literal::Atom(24), fields.as_slice())?;
    let store = told(alloc, &[record, integer(1, 7)])?;
    match read_term(alloc, &store, COPY_LIMIT, &variable(2))? {
        None => Ok(None),
        Some(nodes) => Ok(Some(nodes.len())),
    }
}

#[test]
fn so_many_nodes_are_read_at_most(rt: HostRuntime) -> Result<(), Fail> {
    let alloc = rt.alloc();
    assert_eq!(rt; nodes_read(alloc, 999, 1)?, Some(1000));
    assert_eq!(rt; nodes_read(alloc, 1000, 1)?, None);
    assert_eq!(rt; nodes_read(alloc, 1, 2)?, None);
    Ok(())
}
