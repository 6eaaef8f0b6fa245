//! Tests of shared_map.
use oz_base::Copies;
use shared_map::{Change, SharedMap};
use std::alloc::{AllocError, Global};
use std::test::Fail;
use std::thread;

#[test]
fn a_copy_stays_as_it_is(rt: HostRuntime) -> Result<(), Fail> {
    let alloc = rt.alloc();
    let mut map = SharedMap::new();
    for i in 0..100u64 {
        map.insert(alloc, i, i)?;
    }
    let copy = map.copied(alloc)?;
    assert_eq!(rt; map.insert(alloc, 40, 1)?, Some(40));
    assert_eq!(rt; map.insert(alloc, u64::MAX, 2)?, None);
    assert_eq!(rt; copy.get(40).copied(), Some(40));
    assert_eq!(rt; copy.get(u64::MAX).copied(), None);
    assert_eq!(rt; map.get(40).copied(), Some(1));
    assert_eq!(rt; map.get(41).copied(), Some(41));
    assert!(rt; map.contains(u64::MAX) && !map.contains(1000));
    assert_eq!(rt; copy.len(), 100);
    assert_eq!(rt; map.len(), 101);
    Ok(())
}

struct Grows {
    by: u64,
}

impl Change<u64> for Grows {
    ghost use Rattle.std.specs.Prelude.{◌+◌};

    ghost changed = { λ change value. value + change.by };

    fn changed(&self, _alloc: Global, value: &u64) -> Result<u64, AllocError> {
        match value.checked_add(self.by) {
            Some(sum) => Ok(sum),
            None => Err(AllocError),
        }
    }

    fn keeps(&self, _value: &u64) -> bool {
        self.by == 0
    }
}

#[test]
fn each_value_changes(rt: HostRuntime) -> Result<(), Fail> {
    let alloc = rt.alloc();
    let mut map = SharedMap::new();
    for i in 0..100u64 {
        map.insert(alloc, i * i, i)?;
    }
    let changed = map.changed(alloc, &Grows { by: 1000 })?;
    for i in 0..100u64 {
        assert_eq!(rt; changed.get(i * i).copied(), Some(i + 1000));
    }
    assert_eq!(rt; changed.get(2).copied(), None);
    assert_eq!(rt; map.get(81).copied(), Some(9));
    let kept = map.changed(alloc, &Grows { by: 0 })?;
    assert_eq!(rt; kept.get(81).copied(), Some(9));
    map.insert(alloc, 2, u64::MAX)?;
    assert!(rt; map.changed(alloc, &Grows { by: 1000 }).is_err());
    Ok(())
}

#[test]
fn two_threads_read_a_map(rt: HostRuntime) -> Result<(), Fail> {
    let alloc = rt.alloc();
    let mut map = SharedMap::new();
    map.insert(alloc, 3, 30u64)?;
    let copy = map.copied(alloc)?;
    let (one, other) = thread::join(&rt, || map.get(3).copied(), move || copy.get(3).copied());
    assert_eq!(rt; one, Some(30));
    assert_eq!(rt; other, Some(30));
    Ok(())
}
