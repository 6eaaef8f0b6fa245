//! Tests of statements.
use builtins::{Act, Answer, Readiness};
use environments::Environment;
use oz_base::{Sequence, SpaceName};
use oz_language::Statement;
use oz_semantics::{Code, Frame};
use statements::{Chosen, alternative, answer, ready};
use std::alloc::{AllocError, Global};
use std::test::Fail;
use term_store::Store;

/// `skip`, `choice skip [] skip skip end`
fn program(alloc: Global) -> Result<Vec<Statement>, AllocError> {
    let one = Sequence::from_vec(Vec::from_array(alloc, [0])?);
    let two = Sequence::from_vec(Vec::from_array(alloc, [0, 0])?);
    let alternatives = Sequence::from_vec(Vec::from_array(alloc, [one, two])?);
    let choice = Statement::Choice { alternatives };
    Ok(Vec::from_array(alloc, [Statement::Skip, choice])?)
}

fn frame(number: u32) -> Frame {
    Frame {
        code: Code::Statement(number),
        environment: Environment::new(),
    }
}

#[test]
fn a_statement_steps_or_offers(rt: HostRuntime) -> Result<(), Fail> {
    let alloc = rt.alloc();
    let top = SpaceName::top();
    let store = Store::new(alloc);
    let program = program(alloc)?;
    let statements = program.as_slice();
    let passed = answer(alloc, statements, &top, &store, &frame(0))?;
    assert!(rt; matches!(&passed, Answer::Acts(Act::Passes)));
    let steps = ready(alloc, statements, &top, &store, &frame(0))?;
    assert!(rt; matches!(&steps, Readiness::Steps));
    let offers = ready(alloc, statements, &top, &store, &frame(1))?;
    assert!(rt; matches!(&offers, Readiness::Offers { count: 2, .. }));
    let frames = match alternative(alloc, statements, &store, &frame(1), 2)? {
        Chosen::GoesOn(frames) => frames.len(),
        Chosen::Tells(_) => 0,
    };
    assert_eq!(rt; frames, 2);
    Ok(())
}
