//! What statements answer.
ghost use Rattle.std.specs.Prelude.{◌≡◌, ◌∷◌, [], List, map, pos, IfOk, option_copied, slice_get};
ghost use Rattle.environments.specs.Environments.{bound};
ghost use Rattle.oz_language.specs.declared.kernel.Statement.{Statement};
ghost use Rattle.oz_semantics.specs.Answers as answers;
ghost use Rattle.oz_semantics.specs.Answers.{gives_constant, with_value};
ghost use Rattle.oz_semantics.specs.Builtins.{call_answer};
ghost use Rattle.oz_semantics.specs.Configurations.{frames_of};
ghost use Rattle.oz_semantics.specs.Matching.{matched};
ghost use Rattle.oz_semantics.specs.Statements.{called, branch, clause, record_of, statement_answer, code_answer};
ghost use Rattle.builtins.specs.Answers.{IsAnswer};
ghost use Rattle.builtins.specs.Exact.{answer_of, erased};

use crate::branches::{match_pattern, test};
use crate::calls::{builtin_called, called};
use crate::frames::{frames_of, guard};
use crate::posting::{posts_sum, posts_times};
use crate::variables::{Arguments, all_bound, bound, look, nowhere};
use builtins::{Act, Answer, Closure, Declaration};
use environments::Environment;
use oz_base::{Copies, Ident, Sequence, Shared, SpaceName};
use oz_language::{Constant, Identifier, Literal, Operation, Piece, Statement};
use oz_semantics::{Builtin, Code, Frame, RaiseKind, Record, Value};
use std::alloc::{AllocError, Global};
use term_store::Store;

/// A record of the variables of identifiers.
fn record_of(
    alloc: Global,
    environment: &Environment,
    label: Literal,
    features: &Sequence<Constant>,
    fields: &Sequence<Identifier>,
) -> Result<Value, AllocError>
    ensures { IfOk result (λ value. value ≡ record_of environment.now label features.now fields.now) }
{
    let record = Record {
        label,
        features: features.copied(alloc)?,
        fields: Sequence::from_vec(all_bound(alloc, environment, fields.as_slice())?),
    };
    Ok(Value::Record(Shared::new(alloc, record)?))
}

/// `X=Y`
fn equates(
    alloc: Global,
    environment: &Environment,
    left: Identifier,
    right: Identifier,
) -> Result<Answer, AllocError>
    ensures { IfOk result (λ a. answer_of a ≡ answers.Acts (answers.GivesVariable (bound environment.now left) (bound environment.now right))) }
{
    Ok(Answer::Acts(Act::GivesVariable {
        variable: bound(alloc, environment, left)?,
        other: bound(alloc, environment, right)?,
    }))
}

/// `X=v`
fn gives(
    alloc: Global,
    environment: &Environment,
    name: Identifier,
    value: Value,
) -> Result<Answer, AllocError>
    ensures { IfOk result (λ a. answer_of a ≡ answers.Acts (answers.GivesValue (bound environment.now name) value)) }
{
    Ok(Answer::Acts(Act::GivesValue {
        variable: bound(alloc, environment, name)?,
        value,
    }))
}

/// `X=proc {$ Y ..} S .. end`
fn makes_procedure(
    alloc: Global,
    environment: &Environment,
    name: Identifier,
    parameters: &Sequence<Identifier>,
    body: &Sequence<u32>,
) -> Result<Answer, AllocError>
    ensures { IfOk result (λ a. answer_of a ≡ answers.Acts (answers.MakesProcedure (bound environment.now name) parameters.now body.now environment.now)) }
{
    let closure = Closure {
        parameters: parameters.copied(alloc)?,
        body: body.copied(alloc)?,
        environment: environment.copied(alloc)?,
    };
    Ok(Answer::Acts(Act::MakesProcedure {
        variable: bound(alloc, environment, name)?,
        procedure: Shared::new(alloc, closure)?,
    }))
}

/// `local X .. in S .. end`
fn declares(
    alloc: Global,
    environment: &Environment,
    names: &Sequence<Identifier>,
    body: &Sequence<u32>,
) -> Result<Answer, AllocError>
    ensures { IfOk result (λ a. answer_of a ≡ answers.Acts (answers.Declares environment.now names.now body.now)) }
{
    let declaration = Declaration {
        environment: environment.copied(alloc)?,
        names: names.copied(alloc)?,
        body: body.copied(alloc)?,
    };
    Ok(Answer::Acts(Act::Declares(Shared::new(alloc, declaration)?)))
}

/// `{P X ..}`
fn calls(
    alloc: Global,
    store: &Store,
    space: &SpaceName,
    environment: &Environment,
    procedure: Identifier,
    names: &[Identifier],
) -> Result<Answer, AllocError>
    ensures { IfOk result (λ a. (statements : List Statement) → answer_of a ≡ erased (called (record { statements = statements; space = space.now; view = store.now }) (bound environment.now procedure) (map (bound environment.now) names.now))) }
{
    let missing = nowhere(alloc)?;
    let procedure = look(environment, procedure, &missing);
    let arguments = Arguments::Names { environment, names };
    called(alloc, store, space, procedure, &arguments)
}

/// `{'op' X Y ..}`
fn operates(
    alloc: Global,
    store: &Store,
    space: &SpaceName,
    environment: &Environment,
    operation: Operation,
    names: &[Identifier],
) -> Result<Answer, AllocError>
    ensures { IfOk result (λ a. (statements : List Statement) → answer_of a ≡ erased (call_answer (record { statements = statements; space = space.now; view = store.now }) (Builtin.Operation operation) (map (bound environment.now) names.now))) }
{
    let arguments = Arguments::Names { environment, names };
    builtin_called(
        alloc,
        store,
        space,
        Builtin::Operation(operation),
        &arguments,
    )
}

/// `if X then S .. else S .. end`
fn tests(
    alloc: Global,
    store: &Store,
    environment: &Environment,
    condition: Identifier,
    accepted: &Sequence<u32>,
    otherwise: &Sequence<u32>,
) -> Result<Answer, AllocError>
    ensures { IfOk result (λ a. answer_of a ≡ erased (with_value store.now (bound environment.now condition) (branch environment.now accepted.now otherwise.now))) }
{
    let missing = nowhere(alloc)?;
    let condition = look(environment, condition, &missing);
    test(alloc, store, environment, condition, accepted, otherwise)
}

/// `case X of P then S .. else S .. end`
fn matches(
    alloc: Global,
    store: &Store,
    environment: &Environment,
    subject: Identifier,
    pattern: &Sequence<Piece>,
    accepted: &Sequence<u32>,
    otherwise: &Sequence<u32>,
) -> Result<Answer, AllocError>
    ensures { IfOk result (λ a. answer_of a ≡ erased (clause environment.now accepted.now otherwise.now (matched store.now pattern.now (bound environment.now subject ∷ []) environment.now))) }
{
    let missing = nowhere(alloc)?;
    let subject = look(environment, subject, &missing);
    match_pattern(
        alloc,
        store,
        environment,
        subject,
        pattern,
        accepted,
        otherwise,
    )
}

/// `thread S .. end`
fn starts(
    alloc: Global,
    environment: &Environment,
    body: &Sequence<u32>,
) -> Result<Answer, AllocError>
    ensures { IfOk result (λ a. answer_of a ≡ answers.Acts (answers.Starts (frames_of environment.now body.now))) }
{
    let frames = frames_of(alloc, environment, body.as_slice())?;
    Ok(Answer::Acts(Act::Starts(Sequence::from_vec(frames))))
}

fn answer_statement(
    alloc: Global,
    space: &SpaceName,
    store: &Store,
    environment: &Environment,
    statement: &Statement,
) -> Result<Answer, AllocError>
    ensures { IfOk result (λ a. (statements : List Statement) → answer_of a ≡ erased (statement_answer (record { statements = statements; space = space.now; view = store.now }) environment.now statement.now)) }
{
    match statement {
        Statement::Skip => Ok(Answer::Acts(Act::Passes)),
        Statement::Fail => Ok(Answer::RaisesKind(RaiseKind::FailureFail)),
        Statement::Local { names, body } => declares(alloc, environment, names, body),
        Statement::Equate { left, right } => equates(alloc, environment, *left, *right),
        Statement::Bind { name, value } => {
            gives(alloc, environment, *name, Value::Constant(*value))
        }
        Statement::BindRecord {
            name,
            label,
            features,
            fields,
        } => {
            let value = record_of(alloc, environment, *label, features, fields)?;
            gives(alloc, environment, *name, value)
        }
        Statement::BindProcedure {
            name,
            parameters,
            body,
        } => { makes_procedure(alloc, environment, *name, parameters, body) }
        Statement::Call {
            procedure,
            arguments,
        } => {
            calls(
                alloc,
                store,
                space,
                environment,
                *procedure,
                arguments.as_slice(),
            )
        }
        Statement::Operate {
            operation,
            arguments,
        } => {
            operates(
                alloc,
                store,
                space,
                environment,
                *operation,
                arguments.as_slice(),
            )
        }
        // A commitment of the space alone takes it away.
        Statement::Choice { .. } => Ok(Answer::Rests),
        Statement::If {
            condition,
            accepted,
            otherwise,
        } => { tests(alloc, store, environment, *condition, accepted, otherwise) }
        Statement::Case {
            subject,
            pattern,
            accepted,
            otherwise,
        } => {
            matches(
                alloc,
                store,
                environment,
                *subject,
                pattern,
                accepted,
                otherwise,
            )
        }
        Statement::NoMatch => Ok(Answer::RaisesKind(RaiseKind::NoElse)),
        Statement::Thread { body } => starts(alloc, environment, body),
        Statement::Try {
            body,
            exception,
            handler,
        } => { guard(alloc, environment, body, *exception, handler) }
        Statement::Raise { name } => Ok(Answer::RaisesTerm(bound(alloc, environment, *name)?)),
        Statement::Post {
            sign,
            constant,
            terms,
        } => posts_sum(
            alloc,
            store,
            environment,
            *sign,
            *constant,
            terms.as_slice(),
        ),
        Statement::PostTimes {
            left,
            right,
            product,
        } => posts_times(alloc, store, environment, *left, *right, *product),
    }
}

/// The statement with a number, if the program has it.
pub fn statement_at(statements: &[Statement], number: u32) -> Option<&Statement>
    ensures { option_copied result ≡ slice_get statements.now number }
{
    statements.get(number as usize)
}

/// `X=I` of a variable and an integer.
fn gives_number(alloc: Global, variable: &Ident, number: u64) -> Result<Answer, AllocError>
    ensures { IfOk result (λ a. answer_of a ≡ gives_constant variable.now (Constant.Int (pos number))) }
{
    Ok(Answer::Acts(Act::GivesValue {
        variable: variable.copied(alloc)?,
        value: Value::Constant(Constant::Int(number as i128)),
    }))
}

/// What the statement on top of a thread's stack answers, in a space that sees this. It refuses where there is no memory.
#[tactic(auto, using(crate::proofs::CallLaws::is_answer))]
pub fn answer(
    alloc: Global,
    statements: &[Statement],
    space: &SpaceName,
    store: &Store,
    frame: &Frame,
) -> Result<Answer, AllocError>
    ensures { IfOk result (IsAnswer (code_answer (record { statements = statements.now; space = space.now; view = store.now }) frame.now.environment frame.now.code)) }
{
    match &frame.code {
        Code::Statement(number) => match statement_at(statements, *number) {
            // One that the program does not have rests.
            None => Ok(Answer::Rests),
            Some(statement) => {
                answer_statement(alloc, space, store, &frame.environment, statement)
            }
        },
        Code::Call {
            procedure,
            argument,
        } => called(alloc, store, space, procedure, &Arguments::One(argument)),
        Code::Bind { variable, number } => gives_number(alloc, variable, *number),
        // A mark that no exception has reached does nothing.
        Code::Mark { .. } => Ok(Answer::Acts(Act::Passes)),
    }
}
