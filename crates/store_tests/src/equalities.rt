//! Tests of tree_equal.
use crate::stores::{told, tuple, variable};
use oz_base::Ident;
use oz_language::Literal;
use std::alloc::{AllocError, Global};
use std::test::Fail;
use term_store::Store;
use tree_equal::{Equality, test};

const F: Literal = Literal::Atom(7);

/// The numbers of variables, in order.
fn numbers(alloc: Global, variables: &[Ident]) -> Result<Vec<u64>, AllocError> {
    let mut numbers = Vec::new(alloc);
    for variable in variables {
        numbers.push(variable.number)?;
    }
    numbers.sort()?;
    Ok(numbers)
}

/// Whether an equation is decided so, or waits for these variables.
fn says(
    alloc: Global,
    store: &Store,
    (x, y): (u64, u64),
    decided: Option<bool>,
    waits: &[u64],
) -> Result<bool, AllocError> {
    match test(alloc, store, &variable(x), &variable(y))? {
        Equality::Entailed => Ok(decided == Some(true)),
        Equality::Contradicted => Ok(decided == Some(false)),
        Equality::Undecided(variables) => {
            let numbers = numbers(alloc, variables.as_slice())?;
            Ok(decided.is_none() && numbers.as_slice() == waits)
        }
    }
}

#[test]
fn trees_are_compared_as_a_whole(rt: HostRuntime) -> Result<(), Fail> {
    let alloc = rt.alloc();
    // f(f(A) f(B)) and f(Z Z), and two trees without end
    let tells = [
        tuple(alloc, 0, F, &[2, 3])?,
        tuple(alloc, 2, F, &[4])?,
        tuple(alloc, 3, F, &[5])?,
        tuple(alloc, 1, F, &[6, 6])?,
        tuple(alloc, 7, F, &[7])?,
        tuple(alloc, 8, F, &[9])?,
        tuple(alloc, 9, F, &[8])?,
    ];
    let store = told(alloc, &tells)?;
    assert!(rt; says(alloc, &store, (0, 1), None, &[4, 5, 6])?);
    assert!(rt; says(alloc, &store, (7, 8), Some(true), &[])?);
    Ok(())
}
