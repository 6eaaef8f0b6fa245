//! Tests of builtins.
use builtins::{Row, lookup, rows};
use oz_semantics::{Builtin, SpaceOperation};
use std::test::Fail;

#[test]
fn a_built_in_has_a_name(rt: HostRuntime) -> Result<(), Fail> {
    let named = match rows()[24] {
        Row::Named { name, .. } => name == b"Show".as_slice(),
        _ => false,
    };
    assert!(rt; named);
    assert!(rt; matches!(lookup(b"Arity"), Some(Builtin::Arity)));
    let clone = lookup(b"Clone");
    assert!(rt; matches!(clone, Some(Builtin::OnSpace(SpaceOperation::Clone))));
    assert!(rt; lookup(b"arity").is_none());
    Ok(())
}
