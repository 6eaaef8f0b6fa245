//! What calls of built-ins answer.
ghost use Rattle.std.specs.Prelude.{◌≡◌, ◌<◌, ◌∷◌, [], ℕ, List, length, IfOk};
ghost use Rattle.oz_base.specs.declared.names.Ident.{Ident};
ghost use Rattle.oz_language.specs.declared.kernel.Statement.{Statement};
ghost use Rattle.oz_semantics.specs.Answers.{with_value, argument};
ghost use Rattle.oz_semantics.specs.Builtins.{operands_of, arguments_of, answer, call_answer};
ghost use Rattle.builtins.specs.Answers.{IsAnswer};
ghost use Rattle.builtins.specs.Looks.{Given};
ghost use Rattle.builtins.specs.Exact.{answer_of, erased, gives_label, gives_width, gives_arity, passes, shows};

use crate::answer::{Act, Answer};
use crate::choices::choose;
use crate::delays::by_need;
use crate::domains::{distinct, distributor};
use crate::objects::{access, assign, exchange, new_cell, new_name, new_port, send};
use crate::operations::of_operation;
use crate::records::{gives_arity, gives_label, gives_width};
use crate::spaces::{new_space, on_space};
use oz_base::{Copies, Ident, SpaceName};
use oz_language::Operation;
use oz_semantics::{Builtin, RaiseKind};
use std::alloc::{AllocError, Global};
use term_store::Store;

/// How many variables an operator takes, its output among them.
fn operands_of(operation: Operation) -> usize
    ensures { result ≡ operands_of operation }
{
    match operation {
        Operation::Bound => 2,
        Operation::BoundEach => 2,
        _ => 3,
    }
}

/// How many arguments a built-in takes: 1 at least and 3 at most.
pub fn arguments_of(builtin: Builtin) -> usize
    ensures { result ≡ arguments_of builtin }
{
    match builtin {
        Builtin::Operation(operation) => operands_of(operation),
        Builtin::Label => 2,
        Builtin::Width => 2,
        Builtin::Arity => 2,
        Builtin::NewName => 1,
        Builtin::Wait => 1,
        Builtin::NewCell => 2,
        Builtin::Access => 2,
        Builtin::Assign => 2,
        Builtin::Exchange => 3,
        Builtin::NewPort => 2,
        Builtin::Send => 2,
        Builtin::ByNeed => 2,
        Builtin::Show => 1,
        Builtin::NewSpace => 2,
        Builtin::Choose => 2,
        Builtin::OnSpace(_) => 2,
        Builtin::Distinct => 1,
        Builtin::Distribute => 2,
    }
}

/// The label of an input.
fn label(alloc: Global, store: &Store, input: &Ident, output: &Ident) -> Result<Answer, AllocError>
    ensures { IfOk result (λ a. answer_of a ≡ erased (with_value store.now input.now (gives_label output.now))) }
{
    match store.value(input) {
        None => Ok(Answer::Rests),
        Some(value) => gives_label(alloc, output, value),
    }
}

/// How many features an input has.
fn width(alloc: Global, store: &Store, input: &Ident, output: &Ident) -> Result<Answer, AllocError>
    ensures { IfOk result (λ a. answer_of a ≡ erased (with_value store.now input.now (gives_width output.now))) }
{
    match store.value(input) {
        None => Ok(Answer::Rests),
        Some(value) => gives_width(alloc, output, value),
    }
}

/// The features of an input.
fn arity(alloc: Global, store: &Store, input: &Ident, output: &Ident) -> Result<Answer, AllocError>
    ensures { IfOk result (λ a. answer_of a ≡ erased (with_value store.now input.now (gives_arity output.now))) }
{
    match store.value(input) {
        None => Ok(Answer::Rests),
        Some(value) => gives_arity(alloc, output, value),
    }
}

/// Whether an input has a value.
fn wait(store: &Store, input: &Ident) -> Answer
    ensures { answer_of result ≡ erased (with_value store.now input.now passes) }
{
    match store.value(input) {
        None => Answer::Rests,
        Some(_) => Answer::Acts(Act::Passes),
    }
}

/// Only the top shows.
fn show(alloc: Global, space: &SpaceName, variable: &Ident) -> Result<Answer, AllocError>
    ensures { IfOk result (λ a. answer_of a ≡ shows space.now variable.now) }
{
    if space.is_top() {
        Ok(Answer::Acts(Act::Shows(variable.copied(alloc)?)))
    } else {
        Ok(Answer::RaisesKind(RaiseKind::GlobalIo))
    }
}

/// The answer to a call with as many of these as the built-in takes, the first ones.
fn answers(
    alloc: Global,
    store: &Store,
    space: &SpaceName,
    builtin: Builtin,
    first: &Ident,
    second: &Ident,
    third: &Ident,
) -> Result<Answer, AllocError>
    ensures { IfOk result (λ a. (statements : List Statement) → answer_of a ≡ erased (answer (record { statements = statements; space = space.now; view = store.now }) builtin (argument (first.now ∷ second.now ∷ third.now ∷ [])))) }
{
    match builtin {
        Builtin::Operation(operation) => {
            of_operation(alloc, store, operation, first, second, third)
        }
        Builtin::Label => label(alloc, store, first, second),
        Builtin::Width => width(alloc, store, first, second),
        Builtin::Arity => arity(alloc, store, first, second),
        Builtin::NewName => new_name(alloc, first),
        Builtin::Wait => Ok(wait(store, first)),
        Builtin::NewCell => new_cell(alloc, first, second),
        Builtin::Access => access(alloc, store, space, first, second),
        Builtin::Assign => assign(alloc, store, space, first, second),
        Builtin::Exchange => exchange(alloc, store, space, first, second, third),
        Builtin::NewPort => new_port(alloc, first, second),
        Builtin::Send => send(alloc, store, space, first, second),
        Builtin::ByNeed => by_need(alloc, store, first, second),
        Builtin::Show => show(alloc, space, first),
        Builtin::NewSpace => new_space(alloc, store, first, second),
        Builtin::Choose => Ok(choose(store, first)),
        Builtin::OnSpace(operation) => { on_space(alloc, store, space, operation, first, second) }
        Builtin::Distinct => distinct(alloc, store, first),
        Builtin::Distribute => distributor(alloc, store, first, second),
    }
}

/// The answer to a call with as many arguments as the built-in takes, of which these are the first three: it reads no more of them
/// than it takes. It refuses where there is no memory.
pub fn answer_given(
    alloc: Global,
    store: &Store,
    space: &SpaceName,
    builtin: Builtin,
    first: &Ident,
    second: &Ident,
    third: &Ident,
) -> Result<Answer, AllocError>
    ensures { IfOk result (λ a. (statements : List Statement) (given : ℕ → Ident) → Given builtin first.now second.now third.now given → IsAnswer (answer (record { statements = statements; space = space.now; view = store.now }) builtin given) a) }
{
    answers(alloc, store, space, builtin, first, second, third)
}

/// The argument at a place, from 0, or the other where there is none.
pub fn argument_or<'a>(arguments: &'a [Ident], place: usize, other: &'a Ident) -> &'a Ident
    ensures { place < length arguments.now → result.now ≡ argument arguments.now place }
{
    match arguments.get(place) {
        Some(argument) => argument,
        None => other,
    }
}

/// The answer to a call with these arguments. It refuses where there is no memory.
pub fn answer_call(
    alloc: Global,
    store: &Store,
    space: &SpaceName,
    builtin: Builtin,
    arguments: &[Ident],
) -> Result<Answer, AllocError>
    ensures { IfOk result (λ a. (statements : List Statement) → IsAnswer (call_answer (record { statements = statements; space = space.now; view = store.now }) builtin arguments.now) a) }
{
    if arguments.len() != arguments_of(builtin) {
        return Ok(Answer::RaisesKind(RaiseKind::Arity));
    }
    let first = &arguments[0];
    let second = argument_or(arguments, 1, first);
    let third = argument_or(arguments, 2, first);
    answer_given(alloc, store, space, builtin, first, second, third)
}
