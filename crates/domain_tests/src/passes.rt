//! Tests of propagators.
use crate::rows::{
    DISTINCT_ROWS, EQ_ROWS, Form, LE_ROWS, LT_ROWS, NE_ROWS, Row, TIMES_ROWS, TUPLES,
};
use fd_domain::{Cut, Domain};
use oz_base::{GREATEST_VALUE, LEAST_VALUE, Linear, Relation, Sequence};
use propagators::{Narrowed, are_values, fits, holds, narrow};
use std::alloc::{AllocError, Global};
use std::process::Abort;
use std::test::Fail;

fn relation_of(
    alloc: Global,
    form: Form,
    constant: i64,
    coefficients: &[i64],
) -> Result<Relation, AllocError> {
    let linear = Linear {
        constant,
        coefficients: Sequence::from_vec(Vec::from_slice(alloc, coefficients)?),
    };
    Ok(match form {
        Form::Le => Relation::Le(linear),
        Form::Lt => Relation::Lt(linear),
        Form::Eq => Relation::Eq(linear),
        Form::Ne => Relation::Ne(linear),
        Form::Times => Relation::Times,
        Form::Distinct => Relation::Distinct,
    })
}

fn domains_of(
    rt: &impl Abort,
    alloc: Global,
    ranges: &[(i64, i64)],
    missing: &[(usize, i64)],
) -> Result<Vec<Domain>, Fail> {
    let mut domains = Vec::new(alloc);
    for (low, high) in ranges {
        assert!(rt; LEAST_VALUE <= *low && *high <= GREATEST_VALUE);
        domains.push(Domain::range(alloc, *low, *high)?.ok_or("an empty range")?)?;
    }
    for (place, value) in missing {
        assert!(rt; *place < domains.len());
        assert_eq!(rt; domains[*place].remove(*value)?, Cut::Changed);
    }
    Ok(domains)
}

fn left_of(alloc: Global, domains: &[Domain]) -> Result<Vec<(usize, i64, i64)>, AllocError> {
    let mut left = Vec::new(alloc);
    for place in 0..domains.len() {
        for interval in domains[place].intervals() {
            left.push((place, interval.low, interval.high))?;
        }
    }
    Ok(left)
}

fn check(rt: &impl Abort, alloc: Global, form: Form, row: &Row) -> Result<(), Fail> {
    let (constant, coefficients, ranges, missing, answer, intervals) = *row;
    let relation = relation_of(alloc, form, constant, coefficients)?;
    let mut domains = domains_of(rt, alloc, ranges, missing)?;
    assert!(rt; fits(&relation, domains.len()));
    let narrowed = narrow(alloc, &relation, domains.as_mut_slice())?;
    assert_eq!(rt; narrowed, answer);
    if answer != Narrowed::Fail {
        let left = left_of(alloc, domains.as_slice())?;
        assert_eq!(rt; left.as_slice(), intervals);
    }
    Ok(())
}

fn check_all(rt: &impl Abort, alloc: Global, form: Form, rows: &[Row]) -> Result<(), Fail> {
    for row in rows {
        check(rt, alloc, form, row)?;
    }
    Ok(())
}

#[test]
fn passes_are_as_computed(rt: HostRuntime) -> Result<(), Fail> {
    let alloc = rt.alloc();
    check_all(&rt, alloc, Form::Le, &LE_ROWS)?;
    check_all(&rt, alloc, Form::Lt, &LT_ROWS)?;
    check_all(&rt, alloc, Form::Eq, &EQ_ROWS)?;
    check_all(&rt, alloc, Form::Ne, &NE_ROWS)?;
    check_all(&rt, alloc, Form::Times, &TIMES_ROWS)?;
    check_all(&rt, alloc, Form::Distinct, &DISTINCT_ROWS)
}

/// The tuple of a number: its digits to the base 4, the lowest first.
fn tuple_of(alloc: Global, number: usize, positions: usize) -> Result<Vec<i64>, AllocError> {
    let mut values = Vec::new(alloc);
    let mut rest = number;
    for _ in 0..positions {
        values.push((rest % 4) as i64)?;
        rest /= 4;
    }
    Ok(values)
}

#[test]
fn tuples_are_as_counted(rt: HostRuntime) -> Result<(), Fail> {
    for (form, constant, coefficients, positions, allowed, sum) in &TUPLES {
        let relation = relation_of(rt.alloc(), *form, *constant, coefficients)?;
        let mut found = 0;
        let mut found_sum = 0;
        for number in 0..4usize.pow(*positions as u32) {
            let values = tuple_of(rt.alloc(), number, *positions)?;
            assert!(rt; fits(&relation, values.len()) && are_values(values.as_slice()));
            assert!(rt; found < 64 && found_sum < 64 * 64);
            if holds(&relation, values.as_slice()) {
                found += 1;
                found_sum += number;
            }
        }
        assert_eq!(rt; found, *allowed);
        assert_eq!(rt; found_sum, *sum);
    }
    Ok(())
}
