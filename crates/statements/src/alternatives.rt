//! The alternatives that are offered: the bodies of a choice, the numbers of a `Choose`, and the parts of a domain.
ghost use Rattle.std.specs.Prelude.{◌≡◌, ◌-◌, ◌∷◌, [], ℕ, List, Some, map, unwrap_or, IfOk, option_copied, slice_get};
ghost use Rattle.environments.specs.Environments.{bound};
ghost use Rattle.oz_semantics.specs.Configurations.{frames_of};
ghost use Rattle.oz_semantics.specs.Sights.{Offer, offer_of};
ghost use Rattle.oz_semantics.specs.declared.configuration.Frame as stacked;
ghost use Rattle.oz_semantics.specs.Statements.{code_answer};
ghost use Rattle.oz_semantics.specs.Readiness.{answer_ready};
ghost use Rattle.statements.specs.Offers.{Frames, alternative_in, alternative_of, alternative_at, is_choose, is_distribute, chosen_offer, parts_offer, called_offer, number_frame, of_chosen, IsChosen};
ghost use Rattle.statements.specs.Variables.{variables_of};

use crate::frames::frames_of;
use crate::statement::statement_at;
use crate::variables::{Arguments, look, nowhere};
use builtins::{choice_of, part_of};
use environments::Environment;
use oz_base::{Ident, Sequence};
use oz_language::{Identifier, Statement};
use oz_semantics::{Builtin, Code, Frame, Tell, Value};
use std::alloc::{AllocError, Global};
use term_store::Store;

/// What a commitment to an alternative does.
#[derive(Drop)]
pub enum Chosen {
    /// These go on in the place of the statement.
    GoesOn(Vec<Frame>),
    /// This is told, and the statement stays.
    Tells(Tell),
}

/// No statement goes on.
fn nothing(alloc: Global) -> Chosen
    ensures { of_chosen result ≡ Frames [] }
{
    Chosen::GoesOn(Vec::new(alloc))
}

/// A body, from 1.
fn body_at(bodies: &[Sequence<u32>], index: u64) -> Option<&Sequence<u32>>
    ensures { option_copied result ≡ slice_get bodies.now (index - 1) }
{
    bodies.get(index.saturating_sub(1) as usize)
}

/// The frames of a body, where there is one.
fn frames_of_body(
    alloc: Global,
    environment: &Environment,
    body: Option<&Sequence<u32>>,
) -> Result<Vec<Frame>, AllocError>
    ensures { IfOk result (λ frames. frames.items ≡ frames_of environment.now (unwrap_or (option_copied body.entry) [])) }
{
    match body {
        None => Ok(Vec::new(alloc)),
        Some(body) => frames_of(alloc, environment, body.as_slice()),
    }
}

/// The frames of a body, from 1.
fn alternative_at(
    alloc: Global,
    environment: &Environment,
    bodies: &Sequence<Sequence<u32>>,
    index: u64,
) -> Result<Vec<Frame>, AllocError>
    ensures { IfOk result (λ frames. frames.items ≡ alternative_at environment.now bodies.now index) }
{
    frames_of_body(alloc, environment, body_at(bodies.as_slice(), index))
}

/// The statement by which a variable becomes a number.
fn frames_of_number(alloc: Global, variable: Ident, number: u64) -> Result<Vec<Frame>, AllocError>
    ensures { IfOk result (λ frames. frames.items ≡ number_frame variable number ∷ []) }
{
    let mut frames = Vec::new(alloc);
    frames.push(Frame {
        code: Code::Bind { variable, number },
        environment: Environment::new(),
    })?;
    Ok(frames)
}

fn is_choose(value: Option<&Value>) -> bool
    ensures { result ≡ is_choose (option_copied value.entry) }
{
    match value {
        Some(Value::Builtin(Builtin::Choose)) => true,
        _ => false,
    }
}

fn is_distribute(value: Option<&Value>) -> bool
    ensures { result ≡ is_distribute (option_copied value.entry) }
{
    match value {
        Some(Value::Builtin(Builtin::Distribute)) => true,
        _ => false,
    }
}

/// The alternative of this number of a call of `Choose` with these arguments.
fn alternative_chosen(
    alloc: Global,
    store: &Store,
    arguments: &Arguments<'_>,
    index: u64,
) -> Result<Chosen, AllocError>
    ensures { IfOk result (λ a. of_chosen a ≡ alternative_in index (chosen_offer store.now (variables_of arguments.now))) }
{
    if arguments.len() != 2 {
        return Ok(nothing(alloc));
    }
    let missing = nowhere(alloc)?;
    match choice_of(store, arguments.at(0, &missing)) {
        None => Ok(nothing(alloc)),
        Some(_) => {
            let frames = frames_of_number(alloc, arguments.copy_at(alloc, 1)?, index)?;
            Ok(Chosen::GoesOn(frames))
        }
    }
}

/// The alternative of this number of a distributor with these arguments.
fn alternative_part(
    alloc: Global,
    store: &Store,
    arguments: &Arguments<'_>,
    index: u64,
) -> Result<Chosen, AllocError>
    ensures { IfOk result (λ a. of_chosen a ≡ alternative_in index (parts_offer store.now (variables_of arguments.now))) }
{
    if arguments.len() != 2 {
        return Ok(nothing(alloc));
    }
    let missing = nowhere(alloc)?;
    let rule = arguments.at(0, &missing);
    let elements = arguments.at(1, &missing);
    match part_of(alloc, store, index, rule, elements)? {
        None => Ok(nothing(alloc)),
        Some(part) => Ok(Chosen::Tells(part)),
    }
}

/// An alternative of the call of a variable.
fn alternative_called(
    alloc: Global,
    store: &Store,
    procedure: &Ident,
    arguments: &Arguments<'_>,
    index: u64,
) -> Result<Chosen, AllocError>
    ensures { IfOk result (λ a. of_chosen a ≡ alternative_in index (called_offer store.now procedure.now (variables_of arguments.now))) }
{
    let value = store.value(procedure);
    if is_choose(value) {
        return alternative_chosen(alloc, store, arguments, index);
    }
    if is_distribute(value) {
        return alternative_part(alloc, store, arguments, index);
    }
    Ok(nothing(alloc))
}

/// An alternative of `{P X ..}`.
fn alternative_of_call(
    alloc: Global,
    store: &Store,
    environment: &Environment,
    procedure: Identifier,
    names: &[Identifier],
    index: u64,
) -> Result<Chosen, AllocError>
    ensures { IfOk result (λ a. of_chosen a ≡ alternative_in index (called_offer store.now (bound environment.now procedure) (map (bound environment.now) names.now))) }
{
    let missing = nowhere(alloc)?;
    let procedure = look(environment, procedure, &missing);
    let arguments = Arguments::Names { environment, names };
    alternative_called(alloc, store, procedure, &arguments, index)
}

/// An alternative of a statement. All but choices and calls have none.
fn alternative_of(
    alloc: Global,
    store: &Store,
    environment: &Environment,
    statement: Option<&Statement>,
    index: u64,
) -> Result<Chosen, AllocError>
    ensures { IfOk result (λ a. of_chosen a ≡ alternative_of store.now environment.now index (option_copied statement.entry)) }
{
    match statement {
        Some(Statement::Choice { alternatives }) => {
            let frames = alternative_at(alloc, environment, alternatives, index)?;
            Ok(Chosen::GoesOn(frames))
        }
        Some(
            Statement::Call {
                procedure,
                arguments,
            },
        ) => alternative_of_call(
            alloc,
            store,
            environment,
            *procedure,
            arguments.as_slice(),
            index,
        ),
        _ => Ok(nothing(alloc)),
    }
}

/// An alternative of what stands on top of a thread's stack.
fn alternative_of_frame(
    alloc: Global,
    statements: &[Statement],
    store: &Store,
    frame: &Frame,
    index: u64,
) -> Result<Chosen, AllocError>
    ensures { IfOk result (λ a. (space : List ℕ) → of_chosen a ≡ alternative_in index (offer_of (answer_ready (code_answer (record { statements = statements.now; space = space; view = store.now }) frame.now.environment frame.now.code)))) }
{
    match &frame.code {
        Code::Statement(number) => alternative_of(
            alloc,
            store,
            &frame.environment,
            statement_at(statements, *number),
            index,
        ),
        Code::Call {
            procedure,
            argument,
        } => alternative_called(alloc, store, procedure, &Arguments::One(argument), index),
        Code::Bind { .. } => Ok(nothing(alloc)),
        Code::Mark { .. } => Ok(nothing(alloc)),
    }
}

/// The alternative of this number, from 1, that is offered on top of a thread's stack, in a space that sees this: the body of a choice,
/// what makes the variable of a `Choose` that number, or a part of a domain. No statement goes on where nothing is offered there, or no
/// such alternative. It refuses where there is no memory.
pub fn alternative(
    alloc: Global,
    statements: &[Statement],
    store: &Store,
    frame: &Frame,
    index: u64,
) -> Result<Chosen, AllocError>
    ensures exact { IfOk result (λ a. (space : List ℕ) → of_chosen a ≡ alternative_in index (offer_of (answer_ready (code_answer (record { statements = statements.now; space = space; view = store.now }) frame.now.environment frame.now.code)))) }
    ensures chosen { IfOk result (λ a. (space : List ℕ) (offer : Offer) (stack : List stacked.Frame) → offer_of (answer_ready (code_answer (record { statements = statements.now; space = space; view = store.now }) frame.now.environment frame.now.code)) ≡ Some offer → IsChosen index stack offer a) }
{
    alternative_of_frame(alloc, statements, store, frame, index)
}
