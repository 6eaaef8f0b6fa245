//! Tests of term_store.
use crate::stores::{equation, integer, is, told, variable};
use oz_base::{Copies, SpaceName};
use oz_language::Constant;
use oz_semantics::{Tell, Value};
use std::alloc::{AllocError, Global};
use std::test::Fail;
use term_store::Store;

fn tell(alloc: Global, store: &mut Store, tell: Tell) -> Result<bool, AllocError> {
    store.tell(alloc, &[tell], &mut Vec::new(alloc))
}

fn integer_of(store: &Store, x: u64) -> Option<i128> {
    match store.value(&variable(x)) {
        Some(Value::Constant(Constant::Int(i))) => Some(*i),
        _ => None,
    }
}

/// Tells this value of each of the variables `from` to `to`, without the last.
fn tell_values(
    alloc: Global,
    store: &mut Store,
    from: u64,
    to: u64,
    value: i128,
) -> Result<(), AllocError> {
    for x in from..to {
        tell(alloc, store, integer(x, value))?;
    }
    Ok(())
}

#[test]
fn a_copy_is_told_apart(rt: HostRuntime) -> Result<(), Fail> {
    let alloc = rt.alloc();
    let mut store = told(alloc, &[equation(200, 99)])?;
    tell_values(alloc, &mut store, 0, 50, 1)?;
    let mut copy = store.copied(alloc)?;
    tell_values(alloc, &mut store, 50, 100, 2)?;
    tell_values(alloc, &mut copy, 50, 121, 3)?;
    assert_eq!(rt; (store.len(), copy.len()), (101, 122));
    for x in 0..121u64 {
        let of_copy = if x < 50 { 1 } else { 3 };
        assert_eq!(rt; integer_of(&copy, x), Some(of_copy));
        let of_store = if x < 50 {
            Some(1)
        } else if x < 100 {
            Some(2)
        } else {
            None
        };
        assert_eq!(rt; integer_of(&store, x), of_store);
    }
    assert_eq!(rt; integer_of(&store, 200), Some(2));
    assert!(rt; store.same(&variable(99), &variable(200)));
    Ok(())
}

#[test]
fn a_clash_leaves_the_store_as_it_was(rt: HostRuntime) -> Result<(), Fail> {
    let alloc = rt.alloc();
    let top = SpaceName::top();
    let mut store = Store::new(alloc);
    let mut touched = Vec::new(alloc);
    assert!(rt; !store.tell(alloc, &[integer(0, 1), integer(0, 2)], &mut touched)?);
    assert_eq!(rt; store.len(), 0);
    assert!(rt; tell(alloc, &mut store, is(0, Value::Space(top.child(alloc, 1)?)))?);
    assert!(rt; tell(alloc, &mut store, is(0, Value::Space(top.child(alloc, 1)?)))?);
    assert!(rt; !tell(alloc, &mut store, is(0, Value::Space(top.child(alloc, 2)?)))?);
    Ok(())
}
