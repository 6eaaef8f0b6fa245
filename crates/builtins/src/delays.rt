//! By-need computations (CTM 4.5).
ghost use Rattle.std.specs.Prelude.{◌≡◌, IfOk};
ghost use Rattle.oz_semantics.specs.Answers.{with_value};
ghost use Rattle.oz_semantics.specs.Values.{is_procedure};
ghost use Rattle.oz_semantics.specs.Builtins.{delays};
ghost use Rattle.builtins.specs.Exact.{answer_of, erased};

use crate::answer::{Act, Answer};
use oz_base::{Copies, Ident};
use oz_semantics::{RaiseKind, Value};
use std::alloc::{AllocError, Global};
use term_store::Store;

/// Whether a value is a procedure, of the program or of the language itself.
pub fn is_procedure(value: &Value) -> bool
    ensures { result ≡ is_procedure value.now }
{
    match value {
        Value::Procedure(_) | Value::Builtin(_) => true,
        Value::Constant(_)
        | Value::Name(_)
        | Value::Record(_)
        | Value::Cell(_)
        | Value::Port(_)
        | Value::Space(_) => false,
    }
}

/// The variable waits for what needs it, where the procedure has this value.
fn delays(
    alloc: Global,
    procedure: &Ident,
    variable: &Ident,
    value: &Value,
) -> Result<Answer, AllocError>
    ensures { IfOk result (λ a. answer_of a ≡ erased (delays procedure.now variable.now value.now)) }
{
    if is_procedure(value) {
        Ok(Answer::Acts(Act::Delays {
            procedure: procedure.copied(alloc)?,
            variable: variable.copied(alloc)?,
        }))
    } else {
        Ok(Answer::RaisesKind(RaiseKind::BadKind))
    }
}

/// The procedure, which is waited for, is applied to the variable once that is needed.
pub fn by_need(
    alloc: Global,
    store: &Store,
    procedure: &Ident,
    variable: &Ident,
) -> Result<Answer, AllocError>
    ensures { IfOk result (λ a. answer_of a ≡ erased (with_value store.now procedure.now (delays procedure.now variable.now))) }
{
    match store.value(procedure) {
        None => Ok(Answer::Rests),
        Some(value) => delays(alloc, procedure, variable, value),
    }
}
