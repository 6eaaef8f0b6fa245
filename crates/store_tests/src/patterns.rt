//! Tests of matching.
use crate::stores::{integer, told, tuple, variable};
use environments::Environment;
use matching::{Verdict, decide, waits};
use oz_base::Sequence;
use oz_language::{Constant, Identifier, Literal, Piece};
use std::alloc::{AllocError, Global};
use std::test::Fail;
use term_store::Store;

const F: Literal = Literal::Atom(7);

/// `f(C P)`
fn pattern(alloc: Global, first: i128, second: Piece) -> Result<Vec<Piece>, AllocError> {
    let features = Vec::from_array(alloc, [Constant::Int(1), Constant::Int(2)])?;
    let whole = Piece::Record {
        label: F,
        features: Sequence::from_vec(features),
    };
    let first = Piece::Constant(Constant::Int(first));
    Ok(Vec::from_array(alloc, [whole, first, second])?)
}

/// The number of the variable that the pattern's variable stands for, if it matches.
fn bound_number(alloc: Global, store: &Store, first: i128) -> Result<Option<u64>, AllocError> {
    let name = Identifier::Word(5);
    let pieces = pattern(alloc, first, Piece::Variable(name))?;
    let environment = Environment::new();
    match decide(alloc, store, pieces.as_slice(), &variable(0), &environment)? {
        Verdict::Matches(extended) => Ok(extended.bound(name).map(|x| x.number)),
        _ => Ok(None),
    }
}

#[test]
fn a_pattern_binds_or_waits(rt: HostRuntime) -> Result<(), Fail> {
    let alloc = rt.alloc();
    let store = told(alloc, &[tuple(alloc, 0, F, &[1, 2])?, integer(1, 1)])?;
    assert_eq!(rt; bound_number(alloc, &store, 1)?, Some(2));
    assert_eq!(rt; bound_number(alloc, &store, 3)?, None);
    let pieces = pattern(alloc, 1, Piece::Constant(Constant::Int(2)))?;
    let awaited = waits(alloc, &store, pieces.as_slice(), &variable(0))?;
    assert_eq!(rt; awaited.map(|x| x.number), Some(2));
    Ok(())
}
