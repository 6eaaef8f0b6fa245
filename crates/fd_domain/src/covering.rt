//! Whether lists of intervals, in whatever order they come, have all values of others.

ghost use Rattle.std.specs.Prelude.{◌≡◌, ◌≤◌, ◌-ℤ◌, ◌≤ℤ◌, ◌↔◌, pos, true, false, IsTrue, MatchOption, length, drop};
ghost use Rattle.std.specs.List.{list_any};
ghost use Rattle.oz_domains.specs.Domains.{AreApart, IsInterval};
ghost use Rattle.fd_domain.specs.Covering.{Ends, HasAll, Lacks, LacksOne};
ghost use Rattle.fd_domain.specs.Parts.{interval_has, IsPlace};

use crate::intervals::place_of;
use oz_base::{GREATEST_VALUE, Interval, LEAST_VALUE};

/// The intervals from a place on.
fn rest_of(intervals: &[Interval], start: usize) -> &[Interval]
    requires { start ≤ length intervals.now }
    ensures { result.now ≡ drop start intervals.now }
{
    &intervals[start..]
}

/// The place of an interval that has the value, looked for from a place on at first.
fn place_from(intervals: &[Interval], start: usize, value: i64) -> Option<usize>
    requires { start ≤ length intervals.now }
    ensures { MatchOption result (list_any (interval_has value) intervals.now ≡ false) (IsPlace value intervals.now) }
{
    match place_of(rest_of(intervals, start), value) {
        Some(place) => Some(start + place),
        None => place_of(intervals, value),
    }
}

/// The place of the interval that has `high`, if the intervals have all values from `low` to it. Intervals that ascend are walked
/// along once, from a place on.
fn end_of(intervals: &[Interval], start: usize, low: i64, high: i64) -> Option<usize>
    requires start { start ≤ length intervals.now }
    requires ordered { low ≤ℤ high }
    ensures { MatchOption result (Lacks intervals.now low high) (Ends intervals.now low high) }
{
    let mut place = start;
    let mut value = low;
    'walk: while let Some(found) = place_from(intervals, place, value) {
        let top = intervals[found].high;
        if high <= top {
            return Some(found);
        }
        place = found;
        value = top + 1;
    }
    None
}

/// Whether the intervals have all values that the others have.
pub fn have_all(intervals: &[Interval], others: &[Interval]) -> bool
    requires { AreApart (LEAST_VALUE -ℤ pos 1) GREATEST_VALUE others.now }
    ensures all { result ≡ true → HasAll intervals.now others.now }
    ensures not { result ≡ false → LacksOne intervals.now others.now }
{
    let mut place = 0;
    for other in others {
        match end_of(intervals, place, other.low, other.high) {
            None => return false,
            Some(end) => place = end,
        }
    }
    true
}

/// Whether an interval lies between the bounds of the domain values, from `least` on.
fn is_inside(interval: &Interval, least: i64) -> bool
    ensures { IsTrue result ↔ IsInterval (least -ℤ pos 1) GREATEST_VALUE interval.now }
{
    least <= interval.low && interval.low <= interval.high && interval.high <= GREATEST_VALUE
}

/// Whether the intervals ascend, at least one value missing between two of them, and have domain values alone.
pub fn are_apart(intervals: &[Interval]) -> bool
    ensures { IsTrue result ↔ AreApart (LEAST_VALUE -ℤ pos 1) GREATEST_VALUE intervals.now }
{
    let mut least = LEAST_VALUE;
    for interval in intervals {
        if !is_inside(interval, least) {
            return false;
        }
        least = interval.high + 2;
    }
    true
}
