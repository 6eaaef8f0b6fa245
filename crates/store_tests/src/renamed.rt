//! Tests of renamed_terms.
use environments::Environment;
use oz_base::{Ident, Sequence, Shared, SpaceName};
use oz_language::Identifier;
use oz_semantics::{Procedure, Tell, Value};
use renamed_terms::Renamed;
use renamings::{GivenOut, Renaming};
use std::alloc::{AllocError, Global};
use std::test::Fail;

fn of_child(alloc: Global, number: u64) -> Result<Ident, AllocError> {
    Ok(Ident {
        space: SpaceName::top().child(alloc, 2)?,
        number,
    })
}

/// A procedure of child 2, which knows the child's variable 7.
fn procedure_of(alloc: Global) -> Result<Value, AllocError> {
    let mut environment = Environment::new();
    environment.bind(alloc, Identifier::Word(1), of_child(alloc, 7)?)?;
    let procedure = Procedure {
        name: of_child(alloc, 1)?,
        parameters: Sequence::new(alloc),
        body: Sequence::new(alloc),
        environment,
    };
    Ok(Value::Procedure(Shared::new(alloc, procedure)?))
}

#[test]
fn a_procedure_goes_to_the_parent(rt: HostRuntime) -> Result<(), Fail> {
    let alloc = rt.alloc();
    let merging = Renaming::Merge {
        child: SpaceName::top().child(alloc, 2)?,
        parent: SpaceName::top(),
        given: GivenOut {
            variables: 40,
            procedures: 30,
            names: 20,
            cells: 10,
            ports: 5,
            children: 3,
        },
    };
    let mut tells = Sequence::new(alloc);
    tells.push(Tell::Is {
        variable: of_child(alloc, 0)?,
        value: procedure_of(alloc)?,
    })?;
    let after = tells.renamed(alloc, &merging)?;
    let [
        Tell::Is {
            variable,
            value: Value::Procedure(procedure),
        },
    ] = after.as_slice()
    else {
        panic!(rt; "a procedure is told")
    };
    assert_eq!(rt; (variable.number, procedure.get().name.number), (40, 31));
    let known = procedure.get().environment.bound(Identifier::Word(1));
    assert_eq!(rt; known.map(|x| x.number), Some(47));
    Ok(())
}
