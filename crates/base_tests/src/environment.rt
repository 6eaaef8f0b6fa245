//! Tests of environments.
use crate::names::{of_top, space_of};
use environments::Environment;
use oz_base::Ident;
use oz_language::Identifier;
use renamings::Renaming;
use std::alloc::{AllocError, Global};
use std::test::Fail;

fn number_of(environment: &Environment, name: Identifier) -> Option<u64> {
    match environment.bound(name) {
        Some(variable) => Some(variable.number),
        None => None,
    }
}

fn bind_words(
    environment: &mut Environment,
    alloc: Global,
    from: u32,
    to: u32,
) -> Result<(), AllocError> {
    for number in from..to {
        let word = Identifier::Word(number % 30);
        environment.bind(alloc, word, of_top(u64::from(number)))?;
    }
    Ok(())
}

#[test]
fn the_innermost_binding_counts(rt: HostRuntime) -> Result<(), Fail> {
    let alloc = rt.alloc();
    let mut outer = Environment::new();
    outer.bind(alloc, Identifier::Word(1), of_top(10))?;
    outer.bind(alloc, Identifier::Fresh(1), of_top(11))?;
    let names = [
        Identifier::Word(1),
        Identifier::Word(2),
        Identifier::Word(1),
    ];
    let inner = outer.extended(alloc, &names, &[of_top(20), of_top(21), of_top(22)])?;
    assert_eq!(rt; number_of(&inner, Identifier::Word(1)), Some(20));
    assert_eq!(rt; number_of(&inner, Identifier::Word(2)), Some(21));
    assert_eq!(rt; number_of(&inner, Identifier::Fresh(1)), Some(11));
    assert_eq!(rt; number_of(&outer, Identifier::Word(1)), Some(10));
    assert_eq!(rt; number_of(&outer, Identifier::Word(2)), None);
    Ok(())
}

#[test]
fn recent_and_older_variables_are_renamed(rt: HostRuntime) -> Result<(), Fail> {
    let alloc = rt.alloc();
    let mut environment = Environment::new();
    bind_words(&mut environment, alloc, 0, 25)?;
    let inner = Ident {
        space: space_of(alloc, &[1])?,
        number: 0,
    };
    environment.bind(alloc, Identifier::Fresh(0), inner)?;
    let by = Renaming::Move {
        from: space_of(alloc, &[1])?,
        to: space_of(alloc, &[9])?,
    };
    let renamed = environment.renamed(alloc, &by)?;
    assert_eq!(rt; number_of(&renamed, Identifier::Word(3)), Some(3));
    assert_eq!(rt; number_of(&renamed, Identifier::Word(24)), Some(24));
    assert_eq!(rt; number_of(&renamed, Identifier::Word(25)), None);
    let moved = match renamed.bound(Identifier::Fresh(0)) {
        Some(variable) => variable.space.as_slice() == &[9][..],
        None => false,
    };
    assert!(rt; moved);
    Ok(())
}
