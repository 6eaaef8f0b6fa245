//! Tests of oz_raise.
use crate::stores::told;
use oz_base::SpaceName;
use oz_language::Constant;
use oz_lex::first_words;
use oz_raise::{Node, list_term, new_term, term};
use oz_semantics::RaiseKind;
use std::alloc::Global;
use std::test::Fail;
use term_text::{Text, term_text};

/// The text of a term that the top makes.
fn shown(alloc: Global, nodes: &[Node]) -> Result<Text, Fail> {
    let words = first_words(alloc).ok().ok_or("words")?;
    let made = new_term(alloc, &SpaceName::top(), 10, nodes)?;
    let store = told(alloc, made.tells.as_slice())?;
    Ok(term_text(alloc, &words, &store, &made.variable, 100)?.ok_or("a text")?)
}

#[test]
fn exceptions_have_their_terms(rt: HostRuntime) -> Result<(), Fail> {
    let rows: [(RaiseKind, &[u8]); 5] = [
        (RaiseKind::FailureSpace, b"failure(space)"),
        (RaiseKind::Domain, b"error(kernel(domain))"),
        (RaiseKind::SpaceMerged, b"error(kernel(spaceMerged))"),
        (RaiseKind::GlobalIo, b"error(kernel(globalState io))"),
        (RaiseKind::GlobalCell, b"error(kernel(globalState cell))"),
    ];
    for (kind, expected) in rows {
        let nodes = term(rt.alloc(), kind)?;
        assert_eq!(rt;
            shown(rt.alloc(), nodes.as_slice())?.bytes.as_slice(),
            expected
        );
    }
    Ok(())
}

#[test]
fn a_list_takes_variables(rt: HostRuntime) -> Result<(), Fail> {
    let alloc = rt.alloc();
    let nodes = list_term(alloc, &[Constant::Int(7), Constant::Int(8)])?;
    let list = shown(alloc, nodes.as_slice())?;
    assert_eq!(rt; list.bytes.as_slice(), b"7|8|nil".as_slice());
    assert!(rt; new_term(alloc, &SpaceName::top(), u64::MAX - 2, nodes.as_slice()).is_err());
    Ok(())
}
