//! Tests of shared_list.
use oz_base::Copies;
use shared_list::SharedList;
use std::test::Fail;

#[test]
fn an_item_takes_the_place_of_another(rt: HostRuntime) -> Result<(), Fail> {
    let alloc = rt.alloc();
    let mut list = SharedList::new();
    list.set(alloc, 0, 9u64)?;
    assert_eq!(rt; list.len(), 0);
    list.push(alloc, 10)?;
    let copy = list.copied(alloc)?;
    list.push(alloc, 11)?;
    list.set(alloc, 0, 12)?;
    list.set(alloc, 2, 13)?;
    assert_eq!(rt; list.len(), 2);
    assert_eq!(rt; list.get(0).copied(), Some(12));
    assert_eq!(rt; list.get(1).copied(), Some(11));
    assert_eq!(rt; list.get(2).copied(), None);
    assert_eq!(rt; copy.len(), 1);
    assert_eq!(rt; copy.get(0).copied(), Some(10));
    Ok(())
}
