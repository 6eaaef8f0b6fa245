//! Computation spaces (CTM 12.5; Schulte 4): new ones, and operations on those in the thread's own.
ghost use Rattle.std.specs.Prelude.{◌≡◌, IfOk};
ghost use Rattle.oz_base.specs.Lists.{list_eq};
ghost use Rattle.oz_semantics.specs.Names.{is_child_of};
ghost use Rattle.oz_semantics.specs.Answers.{with_value};
ghost use Rattle.oz_semantics.specs.Builtins.{creates};
ghost use Rattle.builtins.specs.Exact.{answer_of, erased, operates_in, operates_on};

use crate::answer::{Answer, Edit};
use crate::delays::is_procedure;
use oz_base::{Copies, Ident, SpaceName};
use oz_semantics::{RaiseKind, SpaceOperation, Value};
use std::alloc::{AllocError, Global};
use term_store::Store;

fn same_numbers(left: &[u64], right: &[u64]) -> bool
    ensures { result ≡ list_eq left.now right.now }
{
    left == right
}

/// Whether the other is a child of the space.
pub fn is_child_of(space: &SpaceName, other: &SpaceName) -> bool
    ensures { result ≡ is_child_of space.now other.now }
{
    match other.as_slice().split_last() {
        None => false,
        Some((_, parent)) => same_numbers(parent, space.as_slice()),
    }
}

/// The output is a new space, where the procedure has this value.
fn creates(
    alloc: Global,
    procedure: &Ident,
    output: &Ident,
    value: &Value,
) -> Result<Answer, AllocError>
    ensures { IfOk result (λ a. answer_of a ≡ erased (creates procedure.now output.now value.now)) }
{
    if is_procedure(value) {
        Ok(Answer::Edits(Edit::Creates {
            procedure: procedure.copied(alloc)?,
            variable: output.copied(alloc)?,
        }))
    } else {
        Ok(Answer::RaisesKind(RaiseKind::BadKind))
    }
}

/// The output is a new space, in which the procedure, which is waited for, is applied to the root variable.
pub fn new_space(
    alloc: Global,
    store: &Store,
    procedure: &Ident,
    output: &Ident,
) -> Result<Answer, AllocError>
    ensures { IfOk result (λ a. answer_of a ≡ erased (with_value store.now procedure.now (creates procedure.now output.now))) }
{
    match store.value(procedure) {
        None => Ok(Answer::Rests),
        Some(value) => creates(alloc, procedure, output, value),
    }
}

/// An operation on a space with this name.
fn operates_in(
    alloc: Global,
    space: &SpaceName,
    operation: SpaceOperation,
    argument: &Ident,
    other: &SpaceName,
) -> Result<Answer, AllocError>
    ensures { IfOk result (λ a. answer_of a ≡ operates_in space.now operation argument.now other.now) }
{
    if is_child_of(space, other) {
        Ok(Answer::Operates {
            operation,
            space: other.copied(alloc)?,
            argument: argument.copied(alloc)?,
        })
    } else {
        Ok(Answer::RaisesKind(RaiseKind::SpaceParent))
    }
}

/// An operation on what has this value.
fn operates_on(
    alloc: Global,
    space: &SpaceName,
    operation: SpaceOperation,
    argument: &Ident,
    value: &Value,
) -> Result<Answer, AllocError>
    ensures { IfOk result (λ a. answer_of a ≡ erased (operates_on space.now operation argument.now value.now)) }
{
    match value {
        Value::Space(other) => operates_in(alloc, space, operation, argument, other),
        _ => Ok(Answer::RaisesKind(RaiseKind::BadKind)),
    }
}

/// An operation on a space, which is waited for.
pub fn on_space(
    alloc: Global,
    store: &Store,
    space: &SpaceName,
    operation: SpaceOperation,
    other: &Ident,
    argument: &Ident,
) -> Result<Answer, AllocError>
    ensures { IfOk result (λ a. answer_of a ≡ erased (with_value store.now other.now (operates_on space.now operation argument.now))) }
{
    match store.value(other) {
        None => Ok(Answer::Rests),
        Some(value) => operates_on(alloc, space, operation, argument, value),
    }
}
