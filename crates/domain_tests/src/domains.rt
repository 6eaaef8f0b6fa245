//! Tests of fd_domain.
use fd_domain::{Cut, Domain};
use oz_base::{Copies, GREATEST_VALUE, LEAST_VALUE};
use std::process::Abort;
use std::test::Fail;

fn leaves(rt: &impl Abort, domain: &Domain, intervals: &[(i64, i64)]) {
    assert_eq!(rt; domain.intervals().len(), intervals.len());
    for (interval, (low, high)) in domain.intervals().iter().zip(intervals) {
        assert_eq!(rt; (interval.low, interval.high), (*low, *high));
    }
}

#[test]
fn values_are_taken_away(rt: HostRuntime) -> Result<(), Fail> {
    let mut domain = Domain::whole(rt.alloc())?;
    assert_eq!(rt; (domain.min(), domain.max()), (LEAST_VALUE, GREATEST_VALUE));
    assert_eq!(rt; domain.cut_above(9), Cut::Changed);
    assert_eq!(rt; domain.remove(5)?, Cut::Changed);
    assert_eq!(rt; domain.remove(5)?, Cut::Same);
    assert_eq!(rt; domain.remove(0)?, Cut::Changed);
    leaves(&rt, &domain, &[(1, 4), (6, 9)]);
    assert_eq!(rt; domain.remove(8)?, Cut::Changed);
    leaves(&rt, &domain, &[(1, 4), (6, 7), (9, 9)]);
    assert_eq!(rt; domain.size(), 7);
    assert!(rt; domain.has(7) && !domain.has(8) && !domain.has(-1));
    Ok(())
}

#[test]
fn ends_are_cut(rt: HostRuntime) -> Result<(), Fail> {
    let mut domain = Domain::range(rt.alloc(), 1, 9)?.ok_or("an empty range")?;
    assert_eq!(rt; domain.cut_below(2), Cut::Changed);
    assert_eq!(rt; domain.cut_below(-3), Cut::Same);
    assert_eq!(rt; domain.cut_below(10), Cut::Empty);
    assert_eq!(rt; domain.cut_above(1), Cut::Empty);
    assert_eq!(rt; domain.cut_above(2), Cut::Changed);
    assert!(rt; domain.is_single());
    assert_eq!(rt; domain.remove(2)?, Cut::Empty);
    leaves(&rt, &domain, &[(2, 2)]);
    Ok(())
}

#[test]
fn domains_meet(rt: HostRuntime) -> Result<(), Fail> {
    let alloc = rt.alloc();
    assert!(rt; Domain::range(alloc, 3, 2)?.is_none());
    let mut left = Domain::range(alloc, 0, 20)?.ok_or("an empty range")?;
    for value in [3, 8, 9, 15] {
        assert_eq!(rt; left.remove(value)?, Cut::Changed);
    }
    let mut right = Domain::range(alloc, 2, 18)?.ok_or("an empty range")?;
    for value in [5, 6, 11, 16] {
        assert_eq!(rt; right.remove(value)?, Cut::Changed);
    }
    let before = left.copied(alloc)?;
    assert_eq!(rt; left.meet(alloc, &right)?, Cut::Changed);
    leaves(
        &rt,
        &left,
        &[(2, 2), (4, 4), (7, 7), (10, 10), (12, 14), (17, 18)],
    );
    leaves(&rt, &before, &[(0, 2), (4, 7), (10, 14), (16, 20)]);
    assert_eq!(rt; left.meet(alloc, &before)?, Cut::Same);
    let apart = Domain::range(alloc, 19, 30)?.ok_or("an empty range")?;
    assert_eq!(rt; left.meet(alloc, &apart)?, Cut::Empty);
    Ok(())
}
