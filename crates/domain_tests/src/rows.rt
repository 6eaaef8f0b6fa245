//! Passes and tuples, worked out apart from the crates that are tested, from the formulas of the passes.
use propagators::Narrowed;
use propagators::Narrowed::{Changed, Fail, Same};

#[derive(Clone, Copy)]
pub enum Form {
    Le,
    Lt,
    Eq,
    Ne,
    Times,
    Distinct,
}

/// The constant and the coefficients of a relation, the range of each position and the values that are missing in it; then the
/// answer, and each interval that is left, with its position.
pub type Row = (
    i64,
    &'static [i64],
    &'static [(i64, i64)],
    &'static [(usize, i64)],
    Narrowed,
    &'static [(usize, i64, i64)],
);

pub const LE_ROWS: [Row; 4] = [
    (
        -7,
        &[2, 3],
        &[(0, 9), (0, 9)],
        &[],
        Changed,
        &[(0, 0, 3), (1, 0, 2)],
    ),
    (
        -1,
        &[3, -2],
        &[(0, 9), (1, 4)],
        &[(0, 2), (0, 3)],
        Changed,
        &[(0, 0, 1), (1, 1, 4)],
    ),
    (
        0,
        &[1, 1, -1],
        &[(0, 9), (2, 9), (0, 6)],
        &[],
        Changed,
        &[(0, 0, 4), (1, 2, 6), (2, 2, 6)],
    ),
    (1, &[], &[], &[], Fail, &[]),
];

pub const LT_ROWS: [Row; 1] = [(7, &[-3], &[(0, 9)], &[], Changed, &[(0, 3, 9)])];

pub const EQ_ROWS: [Row; 3] = [
    (
        0,
        &[1, -1],
        &[(0, 9), (3, 12)],
        &[(0, 4)],
        Changed,
        &[(0, 3, 3), (0, 5, 9), (1, 3, 9)],
    ),
    (
        0,
        &[5, 0, -1],
        &[(1, 9), (0, 2), (0, 17)],
        &[(2, 6), (2, 7)],
        Changed,
        &[(0, 1, 3), (1, 0, 2), (2, 5, 5), (2, 8, 15)],
    ),
    (0, &[1, -1], &[(3, 3), (4, 4)], &[], Fail, &[]),
];

pub const NE_ROWS: [Row; 4] = [
    (
        3,
        &[2, -3],
        &[(6, 6), (0, 9)],
        &[],
        Changed,
        &[(0, 6, 6), (1, 0, 4), (1, 6, 9)],
    ),
    (
        -8,
        &[-2, 4],
        &[(0, 9), (3, 3)],
        &[],
        Changed,
        &[(0, 0, 1), (0, 3, 9), (1, 3, 3)],
    ),
    (
        0,
        &[0, 1, -1],
        &[(0, 1), (2, 2), (2, 2)],
        &[],
        Same,
        &[(0, 0, 1), (1, 2, 2), (2, 2, 2)],
    ),
    (0, &[1, -1], &[(2, 2), (2, 2)], &[], Fail, &[]),
];

pub const TIMES_ROWS: [Row; 4] = [
    (
        0,
        &[],
        &[(2, 5), (3, 4), (0, 100)],
        &[],
        Changed,
        &[(0, 2, 5), (1, 3, 4), (2, 6, 20)],
    ),
    (
        0,
        &[],
        &[(0, 9), (0, 5), (1, 20)],
        &[],
        Changed,
        &[(0, 1, 9), (1, 1, 5), (2, 1, 20)],
    ),
    (
        0,
        &[],
        &[(4, 9), (0, 9), (1, 8)],
        &[(2, 3)],
        Changed,
        &[(0, 4, 9), (1, 1, 2), (2, 1, 2), (2, 4, 8)],
    ),
    (0, &[], &[(3, 9), (4, 9), (0, 11)], &[], Fail, &[]),
];

pub const DISTINCT_ROWS: [Row; 4] = [
    (
        0,
        &[],
        &[(0, 3), (2, 2), (1, 2)],
        &[],
        Changed,
        &[(0, 0, 0), (0, 3, 3), (1, 2, 2), (2, 1, 1)],
    ),
    (
        0,
        &[],
        &[(0, 1), (0, 1), (0, 1)],
        &[],
        Same,
        &[(0, 0, 1), (1, 0, 1), (2, 0, 1)],
    ),
    (0, &[], &[(2, 2), (3, 3), (2, 3)], &[], Fail, &[]),
    (
        0,
        &[],
        &[(0, 5), (3, 3), (2, 4), (2, 2)],
        &[(2, 3)],
        Changed,
        &[(0, 0, 1), (0, 4, 5), (1, 3, 3), (2, 4, 4), (3, 2, 2)],
    ),
];

/// A relation's form, constant and coefficients, its number of positions, and of all tuples of the values 0 to 3 how many are
/// allowed; then the sum of their numbers, where the value of position k counts 4 to the power of k times.
pub type Tuples = (Form, i64, &'static [i64], usize, usize, usize);

pub const TUPLES: [Tuples; 8] = [
    (Form::Le, 2, &[-1, 2, -1], 3, 20, 712),
    (Form::Lt, 0, &[1, -1], 2, 6, 60),
    (Form::Eq, 1, &[1, -2, 1], 3, 8, 268),
    (Form::Ne, -2, &[1, 1, -1], 3, 52, 1660),
    (Form::Eq, 1, &[], 0, 0, 0),
    (Form::Times, 0, &[], 3, 12, 246),
    (Form::Distinct, 0, &[], 3, 24, 756),
    (Form::Distinct, 0, &[], 0, 1, 0),
];
