//! Whether statements can step.
ghost use Rattle.std.specs.Prelude.{◌≡◌, ◌∷◌, [], ℕ, List, map, length, IfOk, option_copied};
ghost use Rattle.environments.specs.Environments.{bound};
ghost use Rattle.oz_language.specs.declared.kernel.Statement.{Statement};
ghost use Rattle.oz_semantics.specs.Store.{View};
ghost use Rattle.oz_semantics.specs.Answers.{given, with_value};
ghost use Rattle.oz_semantics.specs.Builtins.{call_answer};
ghost use Rattle.oz_semantics.specs.Matching.{matched};
ghost use Rattle.oz_semantics.specs.Statements.{value_called, called, branch, clause, statement_answer, numbered_answer, code_answer};
ghost use Rattle.oz_semantics.specs.Readiness.{answer_ready};
ghost use Rattle.builtins.specs.Answers.{IsReady};
ghost use Rattle.statements.specs.Variables.{variables_of};

use crate::statement::statement_at;
use crate::variables::{Arguments, look, nowhere};
use builtins::{Readiness, arguments_of, ready_by, ready_one};
use environments::Environment;
use matching::waits;
use oz_base::{Ident, Sequence, SpaceName};
use oz_language::{Identifier, Operation, Piece, Statement};
use oz_semantics::{Builtin, Code, Frame, Value};
use std::alloc::{AllocError, Global};
use term_store::Store;

/// The call of a built-in.
fn ready_builtin(
    alloc: Global,
    store: &Store,
    space: &SpaceName,
    builtin: Builtin,
    arguments: &Arguments<'_>,
) -> Result<Readiness, AllocError>
    ensures { IfOk result (λ r. (statements : List Statement) → IsReady store.now (answer_ready (call_answer (record { statements = statements; space = space.now; view = store.now }) builtin (variables_of arguments.now))) r) }
{
    let count = arguments_of(builtin);
    if arguments.len() != count {
        return Ok(Readiness::Steps);
    }
    let missing = nowhere(alloc)?;
    let first = arguments.at(0, &missing);
    let second = arguments.at(1, &missing);
    builtins::ready_given(alloc, store, space, builtin, first, second)
}

/// The call of a value.
#[tactic(auto, using(crate::proofs::ReadyLaws::procedure_steps))]
fn ready_value(
    alloc: Global,
    store: &Store,
    space: &SpaceName,
    value: &Value,
    arguments: &Arguments<'_>,
) -> Result<Readiness, AllocError>
    ensures { IfOk result (λ r. (statements : List Statement) → IsReady store.now (answer_ready (value_called (record { statements = statements; space = space.now; view = store.now }) (variables_of arguments.now) value.now)) r) }
{
    match value {
        Value::Constant(_)
        | Value::Name(_)
        | Value::Record(_)
        | Value::Procedure(_)
        | Value::Cell(_)
        | Value::Port(_)
        | Value::Space(_) => Ok(Readiness::Steps),
        Value::Builtin(builtin) => ready_builtin(alloc, store, space, *builtin, arguments),
    }
}

/// The call of what has this value, if it has one.
fn ready_given(
    alloc: Global,
    store: &Store,
    space: &SpaceName,
    procedure: &Ident,
    value: Option<&Value>,
    arguments: &Arguments<'_>,
) -> Result<Readiness, AllocError>
    ensures { IfOk result (λ r. (statements : List Statement) → IsReady store.now (answer_ready (given procedure.now (option_copied value.entry) (value_called (record { statements = statements; space = space.now; view = store.now }) (variables_of arguments.now)))) r) }
{
    match value {
        None => ready_by(alloc, Some(procedure)),
        Some(value) => ready_value(alloc, store, space, value, arguments),
    }
}

/// The call of a variable.
fn ready_called(
    alloc: Global,
    store: &Store,
    space: &SpaceName,
    procedure: &Ident,
    arguments: &Arguments<'_>,
) -> Result<Readiness, AllocError>
    ensures { IfOk result (λ r. (statements : List Statement) → IsReady store.now (answer_ready (called (record { statements = statements; space = space.now; view = store.now }) procedure.now (variables_of arguments.now))) r) }
{
    let value = store.value(procedure);
    ready_given(alloc, store, space, procedure, value, arguments)
}

/// `{P X ..}`
fn ready_call(
    alloc: Global,
    store: &Store,
    space: &SpaceName,
    environment: &Environment,
    procedure: Identifier,
    names: &Sequence<Identifier>,
) -> Result<Readiness, AllocError>
    ensures { IfOk result (λ r. (statements : List Statement) → IsReady store.now (answer_ready (called (record { statements = statements; space = space.now; view = store.now }) (bound environment.now procedure) (map (bound environment.now) names.now))) r) }
{
    let missing = nowhere(alloc)?;
    let procedure = look(environment, procedure, &missing);
    let arguments = Arguments::Names {
        environment,
        names: names.as_slice(),
    };
    ready_called(alloc, store, space, procedure, &arguments)
}

/// `{'op' X Y ..}`
fn ready_operation(
    alloc: Global,
    store: &Store,
    space: &SpaceName,
    environment: &Environment,
    operation: Operation,
    names: &Sequence<Identifier>,
) -> Result<Readiness, AllocError>
    ensures { IfOk result (λ r. (statements : List Statement) → IsReady store.now (answer_ready (call_answer (record { statements = statements; space = space.now; view = store.now }) (Builtin.Operation operation) (map (bound environment.now) names.now))) r) }
{
    let arguments = Arguments::Names {
        environment,
        names: names.as_slice(),
    };
    ready_builtin(
        alloc,
        store,
        space,
        Builtin::Operation(operation),
        &arguments,
    )
}

/// `if X then S .. else S .. end`
fn ready_test(
    alloc: Global,
    store: &Store,
    environment: &Environment,
    condition: Identifier,
) -> Result<Readiness, AllocError>
    ensures { IfOk result (λ r. (accepted otherwise : List ℕ) → IsReady store.now (answer_ready (with_value store.now (bound environment.now condition) (branch environment.now accepted otherwise))) r) }
{
    let missing = nowhere(alloc)?;
    let condition = look(environment, condition, &missing);
    ready_one(alloc, store, condition)
}

/// `case X of P then S .. else S .. end`
fn ready_match(
    alloc: Global,
    store: &Store,
    environment: &Environment,
    subject: Identifier,
    pattern: &Sequence<Piece>,
) -> Result<Readiness, AllocError>
    ensures { IfOk result (λ r. (accepted otherwise : List ℕ) → IsReady store.now (answer_ready (clause environment.now accepted otherwise (matched store.now pattern.now (bound environment.now subject ∷ []) environment.now))) r) }
{
    let missing = nowhere(alloc)?;
    let subject = look(environment, subject, &missing);
    let awaited = waits(alloc, store, pattern.as_slice(), subject)?;
    ready_by(alloc, awaited.as_ref())
}

fn ready_statement(
    alloc: Global,
    store: &Store,
    space: &SpaceName,
    environment: &Environment,
    statement: &Statement,
) -> Result<Readiness, AllocError>
    ensures { IfOk result (λ r. (statements : List Statement) → IsReady store.now (answer_ready (statement_answer (record { statements = statements; space = space.now; view = store.now }) environment.now statement.now)) r) }
{
    match statement {
        Statement::Call {
            procedure,
            arguments,
        } => ready_call(alloc, store, space, environment, *procedure, arguments),
        Statement::Operate {
            operation,
            arguments,
        } => ready_operation(alloc, store, space, environment, *operation, arguments),
        Statement::Choice { alternatives } => Ok(Readiness::Offers {
            count: alternatives.len() as u64,
            waits: Sequence::new(alloc),
        }),
        Statement::If { condition, .. } => ready_test(alloc, store, environment, *condition),
        Statement::Case {
            subject,
            pattern,
            ..
        } => ready_match(alloc, store, environment, *subject, pattern),
        Statement::Skip
        | Statement::Fail
        | Statement::Local { .. }
        | Statement::Equate { .. }
        | Statement::Bind { .. }
        | Statement::BindRecord { .. }
        | Statement::BindProcedure { .. }
        | Statement::NoMatch
        | Statement::Thread { .. }
        | Statement::Try { .. }
        | Statement::Raise { .. }
        | Statement::Post { .. }
        | Statement::PostTimes { .. } => Ok(Readiness::Steps),
    }
}

/// A statement with a number. One that the program does not have waits for nothing.
fn ready_numbered(
    alloc: Global,
    store: &Store,
    space: &SpaceName,
    environment: &Environment,
    statement: Option<&Statement>,
) -> Result<Readiness, AllocError>
    ensures { IfOk result (λ r. (statements : List Statement) → IsReady store.now (answer_ready (numbered_answer (record { statements = statements; space = space.now; view = store.now }) environment.now (option_copied statement.entry))) r) }
{
    match statement {
        None => Ok(Readiness::Waits(Sequence::new(alloc))),
        Some(statement) => ready_statement(alloc, store, space, environment, statement),
    }
}

fn ready_code(
    alloc: Global,
    statements: &[Statement],
    store: &Store,
    space: &SpaceName,
    frame: &Frame,
) -> Result<Readiness, AllocError>
    ensures { IfOk result (IsReady store.now (answer_ready (code_answer (record { statements = statements.now; space = space.now; view = store.now }) frame.now.environment frame.now.code))) }
{
    match &frame.code {
        Code::Statement(number) => {
            let statement = statement_at(statements, *number);
            ready_numbered(alloc, store, space, &frame.environment, statement)
        }
        Code::Call {
            procedure,
            argument,
        } => ready_called(alloc, store, space, procedure, &Arguments::One(argument)),
        Code::Bind { .. } => Ok(Readiness::Steps),
        Code::Mark { .. } => Ok(Readiness::Steps),
    }
}

/// Whether the statement on top of a thread's stack can step, in a space that sees this. An operation on a child space waits for the
/// state of that: what it comes to where the state is known, its answer has to say. It refuses where there is no memory, which it
/// needs for tests of equality, for matches, for domains and for what it waits for alone.
pub fn ready(
    alloc: Global,
    statements: &[Statement],
    space: &SpaceName,
    store: &Store,
    frame: &Frame,
) -> Result<Readiness, AllocError>
    ensures { IfOk result (IsReady store.now (answer_ready (code_answer (record { statements = statements.now; space = space.now; view = store.now }) frame.now.environment frame.now.code))) }
{
    ready_code(alloc, statements, store, space, frame)
}
