//! What calls answer.
ghost use Rattle.std.specs.Prelude.{◌≡◌, List, length, IfOk, option_copied};
ghost use Rattle.environments.specs.Environments.{binding_all};
ghost use Rattle.oz_language.specs.declared.kernel.Statement.{Statement};
ghost use Rattle.oz_semantics.specs.Answers.{given};
ghost use Rattle.oz_semantics.specs.Builtins.{call_answer};
ghost use Rattle.oz_semantics.specs.Statements.{procedure_called, value_called, called};
ghost use Rattle.builtins.specs.Exact.{answer_of, erased};
ghost use Rattle.statements.specs.Variables.{variables_of};

use crate::frames::go_on;
use crate::variables::{Arguments, nowhere};
use builtins::{Answer, answer_given, arguments_of};
use environments::Environment;
use oz_base::{Copies, Ident, SpaceName};
use oz_semantics::{Builtin, Procedure, RaiseKind, Value};
use std::alloc::{AllocError, Global};
use term_store::Store;

/// The environment of a procedure's body, in which the parameters stand for the arguments.
fn environment_inside(
    alloc: Global,
    procedure: &Procedure,
    arguments: &Arguments<'_>,
) -> Result<Environment, AllocError>
    requires { length procedure.now.parameters ≡ length (variables_of arguments.now) }
    ensures { IfOk result (λ inside. inside ≡ binding_all procedure.now.parameters (variables_of arguments.now) procedure.now.environment) }
{
    let mut inside = procedure.environment.copied(alloc)?;
    let parameters = procedure.parameters.as_slice();
    let mut left = parameters.len();
    'parameters: while left > 0 {
        left -= 1;
        inside.bind(alloc, parameters[left], arguments.copy_at(alloc, left)?)?;
    }
    Ok(inside)
}

/// The body of a procedure goes on.
fn procedure_called(
    alloc: Global,
    procedure: &Procedure,
    arguments: &Arguments<'_>,
) -> Result<Answer, AllocError>
    ensures { IfOk result (λ a. answer_of a ≡ procedure_called procedure.now (variables_of arguments.now)) }
{
    if arguments.len() != procedure.parameters.len() {
        return Ok(Answer::RaisesKind(RaiseKind::Arity));
    }
    let inside = environment_inside(alloc, procedure, arguments)?;
    go_on(alloc, &inside, &procedure.body)
}

/// A built-in is called.
pub fn builtin_called(
    alloc: Global,
    store: &Store,
    space: &SpaceName,
    builtin: Builtin,
    arguments: &Arguments<'_>,
) -> Result<Answer, AllocError>
    ensures { IfOk result (λ a. (statements : List Statement) → answer_of a ≡ erased (call_answer (record { statements = statements; space = space.now; view = store.now }) builtin (variables_of arguments.now))) }
{
    let count = arguments_of(builtin);
    if arguments.len() != count {
        return Ok(Answer::RaisesKind(RaiseKind::Arity));
    }
    let missing = nowhere(alloc)?;
    let first = arguments.at(0, &missing);
    let second = arguments.at(1, &missing);
    let third = arguments.at(2, &missing);
    answer_given(alloc, store, space, builtin, first, second, third)
}

/// A value is called, if there is one.
fn value_called(
    alloc: Global,
    store: &Store,
    space: &SpaceName,
    procedure: &Ident,
    value: Option<&Value>,
    arguments: &Arguments<'_>,
) -> Result<Answer, AllocError>
    ensures { IfOk result (λ a. (statements : List Statement) → answer_of a ≡ erased (given procedure.now (option_copied value.entry) (value_called (record { statements = statements; space = space.now; view = store.now }) (variables_of arguments.now)))) }
{
    match value {
        None => Ok(Answer::Rests),
        Some(Value::Constant(_))
        | Some(Value::Name(_))
        | Some(Value::Record(_))
        | Some(Value::Cell(_))
        | Some(Value::Port(_))
        | Some(Value::Space(_)) => Ok(Answer::RaisesKind(RaiseKind::Apply)),
        Some(Value::Procedure(procedure)) => procedure_called(alloc, procedure.get(), arguments),
        Some(Value::Builtin(builtin)) => {
            builtin_called(alloc, store, space, *builtin, arguments)
        }
    }
}

/// A variable is called.
pub fn called(
    alloc: Global,
    store: &Store,
    space: &SpaceName,
    procedure: &Ident,
    arguments: &Arguments<'_>,
) -> Result<Answer, AllocError>
    ensures { IfOk result (λ a. (statements : List Statement) → answer_of a ≡ erased (called (record { statements = statements; space = space.now; view = store.now }) procedure.now (variables_of arguments.now))) }
{
    let value = store.value(procedure);
    value_called(alloc, store, space, procedure, value, arguments)
}
