//! Tests of term_text.
use crate::stores::{equation, is, record, told, tuple, variable};
use oz_base::Words;
use oz_language::{Constant, Literal};
use oz_semantics::{Tell, Value};
use std::alloc::{AllocError, Global};
use std::test::Fail;
use term_text::{Text, term_text};

const F: Literal = Literal::Atom(0);

const G: Literal = Literal::Atom(1);

const A: Literal = Literal::Atom(2);

const BAR: Literal = Literal::Atom(3);

/// `x=a`
fn atom(x: u64, literal: Literal) -> Tell {
    is(x, Value::Constant(Constant::Literal(literal)))
}

/// The text of variable 0.
fn text(alloc: Global, tells: &[Tell], fuel: u64) -> Result<Option<Text>, AllocError> {
    let mut words = Words::new(alloc);
    for letter in b"fga|#" {
        words.number(&[*letter])?;
    }
    let store = told(alloc, tells)?;
    term_text(alloc, &words, &store, &variable(0), fuel)
}

/// Whether the text of variable 0 is this, and goes through so many nodes.
fn shows(alloc: Global, tells: &[Tell], bytes: &[u8], nodes: u64) -> Result<bool, AllocError> {
    match text(alloc, tells, nodes)? {
        None => Ok(false),
        Some(text) => Ok(text.bytes.as_slice() == bytes && text.nodes == nodes),
    }
}

#[test]
fn features_of_each_kind(rt: HostRuntime) -> Result<(), Fail> {
    let alloc = rt.alloc();
    let fields = [
        (Constant::Int(-1), 1),
        (Constant::Int(1), 2),
        (Constant::Int(3), 1),
        (Constant::Literal(A), 2),
        (Constant::Literal(Literal::False), 1),
    ];
    let tells = [record(alloc, 0, Literal::True, &fields)?, atom(2, BAR)];
    assert!(rt; shows(alloc, &tells, b"true(~1:_ '|' 3:_ a:'|' false:_)", 6)?);
    Ok(())
}

#[test]
fn terms_inside_themselves(rt: HostRuntime) -> Result<(), Fail> {
    let alloc = rt.alloc();
    let inside = [tuple(alloc, 0, F, &[1])?, equation(1, 0)];
    assert!(rt; shows(alloc, &inside, b"f(^1)", 2)?);
    let both = [tuple(alloc, 0, F, &[1, 0])?, tuple(alloc, 1, G, &[0, 1])?];
    assert!(rt; shows(alloc, &both, b"f(g(^2 ^1) ^1)", 5)?);
    let list = [
        tuple(alloc, 0, BAR, &[1, 2])?,
        tuple(alloc, 2, BAR, &[3, 0])?,
        atom(1, A),
    ];
    assert!(rt; shows(alloc, &list, b"a|_|^2", 5)?);
    Ok(())
}

/// `f(f(.. ))` of this depth, around `_`.
fn chain(alloc: Global, depth: u64) -> Result<Vec<Tell>, AllocError> {
    let mut tells = Vec::new(alloc);
    for at in 0..depth {
        tells.push(tuple(alloc, at, F, &[at + 1])?)?;
    }
    Ok(tells)
}

#[test]
fn a_term_may_have_too_many_nodes(rt: HostRuntime) -> Result<(), Fail> {
    let alloc = rt.alloc();
    let deep = chain(alloc, 1000)?;
    assert!(rt; text(alloc, deep.as_slice(), 1001)?.is_some());
    assert!(rt; text(alloc, deep.as_slice(), 1000)?.is_none());
    Ok(())
}
