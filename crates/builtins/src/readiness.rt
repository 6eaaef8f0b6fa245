//! Whether calls of built-ins can step.
ghost use Rattle.std.specs.Prelude.{◌≡◌, ℕ, Bool, List, Some, IfOk, option_copied};
ghost use Rattle.oz_base.specs.declared.names.Ident.{Ident};
ghost use Rattle.oz_language.specs.declared.kernel.Statement.{Statement};
ghost use Rattle.oz_semantics.specs.Values.{space_in};
ghost use Rattle.oz_semantics.specs.Store.{View, value_of};
ghost use Rattle.oz_semantics.specs.Entailment.{equality};
ghost use Rattle.oz_semantics.specs.Sights.{Steps};
ghost use Rattle.oz_semantics.specs.Builtins.{of_equality, of_operation, answer, call_answer};
ghost use Rattle.oz_semantics.specs.Readiness.{answer_ready};
ghost use Rattle.builtins.specs.Answers.{IsReady};
ghost use Rattle.builtins.specs.Looks.{Inputs, ready_by, awaiting, offering, choosing, operating, operating_on};

use crate::answer::Readiness;
use crate::calls::{argument_or, arguments_of};
use crate::choices::choice_in;
use crate::domain_readiness::{ready_bound, ready_bound_each, ready_distinct, ready_distributor};
use crate::given::single;
use crate::spaces::is_child_of;
use oz_base::{Copies, Ident, Sequence, SpaceName};
use oz_language::Operation;
use oz_semantics::{Builtin, Value};
use std::alloc::{AllocError, Global};
use term_store::Store;
use tree_equal::{Equality, test};

/// An input that has no value.
fn awaited<'a>(store: &Store, input: &'a Ident) -> Option<&'a Ident>
    ensures { ready_by (option_copied result) ≡ awaiting input.now (value_of store.now input.now) Steps }
{
    match store.value(input) {
        None => Some(input),
        Some(_) => None,
    }
}

/// The first of two inputs that has no value.
fn awaited_of_two<'a>(store: &Store, left: &'a Ident, right: &'a Ident) -> Option<&'a Ident>
    ensures { ready_by (option_copied result) ≡ awaiting left.now (value_of store.now left.now) (awaiting right.now (value_of store.now right.now) Steps) }
{
    match store.value(left) {
        None => Some(left),
        Some(_) => awaited(store, right),
    }
}

/// It waits for this variable, if there is one, and else steps. It refuses where there is no memory.
pub fn ready_by(alloc: Global, awaited: Option<&Ident>) -> Result<Readiness, AllocError>
    ensures { IfOk result (λ r. (view : View) → IsReady view (ready_by (option_copied awaited.entry)) r) }
{
    match awaited {
        None => Ok(Readiness::Steps),
        Some(variable) => Ok(Readiness::Waits(single(alloc, variable)?)),
    }
}

/// Whether two variables are equal.
fn ready_equal(
    alloc: Global,
    store: &Store,
    left: &Ident,
    right: &Ident,
) -> Result<Readiness, AllocError>
    ensures { IfOk result (λ r. (z : Ident) (asked : Bool) → IsReady store.now (answer_ready (of_equality z asked (equality store.now left.now right.now))) r) }
{
    match test(alloc, store, left, right)? {
        Equality::Entailed => Ok(Readiness::Steps),
        Equality::Contradicted => Ok(Readiness::Steps),
        Equality::Undecided(variables) => Ok(Readiness::Waits(variables)),
    }
}

/// An operation on the values of two inputs.
fn ready_two(
    alloc: Global,
    store: &Store,
    left: &Ident,
    right: &Ident,
) -> Result<Readiness, AllocError>
    ensures { IfOk result (IsReady store.now (awaiting left.now (value_of store.now left.now) (awaiting right.now (value_of store.now right.now) Steps))) }
{
    ready_by(alloc, awaited_of_two(store, left, right))
}

/// It waits for an input, where that has no value, and else steps. It refuses where there is no memory.
pub fn ready_one(alloc: Global, store: &Store, input: &Ident) -> Result<Readiness, AllocError>
    ensures { IfOk result (IsReady store.now (awaiting input.now (value_of store.now input.now) Steps)) }
{
    ready_by(alloc, awaited(store, input))
}

/// An operation with these inputs.
fn ready_operation(
    alloc: Global,
    store: &Store,
    operation: Operation,
    left: &Ident,
    right: &Ident,
) -> Result<Readiness, AllocError>
    ensures { IfOk result (λ r. (z : Ident) → IsReady store.now (answer_ready (of_operation store.now operation left.now right.now z)) r) }
{
    match operation {
        Operation::Same => ready_equal(alloc, store, left, right),
        Operation::Differs => ready_equal(alloc, store, left, right),
        Operation::Bound => ready_bound(alloc, store, right),
        Operation::BoundEach => ready_bound_each(alloc, store, left, right),
        _ => ready_two(alloc, store, left, right),
    }
}

/// It offers so many alternatives, if it offers any, and else steps.
fn offering(alloc: Global, choice: Option<u64>) -> Readiness
    ensures { (view : View) (x : Ident) → IsReady view (offering x choice) result }
{
    match choice {
        Some(count) => Readiness::Offers {
            count,
            waits: Sequence::new(alloc),
        },
        None => Readiness::Steps,
    }
}

/// A `Choose` of a number, which is waited for.
fn ready_choose(alloc: Global, store: &Store, number: &Ident) -> Result<Readiness, AllocError>
    ensures { IfOk result (λ r. (x : Ident) → IsReady store.now (choosing x number.now (value_of store.now number.now)) r) }
{
    match store.value(number) {
        None => ready_by(alloc, Some(number)),
        Some(value) => Ok(offering(alloc, choice_in(value))),
    }
}

/// An operation on a space with this name goes by the state of that, where it is a child.
fn ready_in(alloc: Global, space: &SpaceName, other: &SpaceName) -> Result<Readiness, AllocError>
    ensures { IfOk result (λ r. (view : View) → IsReady view (operating space.now (Some other.now)) r) }
{
    if is_child_of(space, other) {
        Ok(Readiness::WaitsForState(other.copied(alloc)?))
    } else {
        Ok(Readiness::Steps)
    }
}

/// An operation on what has this value.
fn ready_on(alloc: Global, space: &SpaceName, value: &Value) -> Result<Readiness, AllocError>
    ensures { IfOk result (λ r. (view : View) → IsReady view (operating space.now (space_in value.now)) r) }
{
    match value {
        Value::Space(other) => ready_in(alloc, space, other),
        _ => Ok(Readiness::Steps),
    }
}

/// An operation on a space, which is waited for.
fn ready_on_space(
    alloc: Global,
    store: &Store,
    space: &SpaceName,
    other: &Ident,
) -> Result<Readiness, AllocError>
    ensures { IfOk result (IsReady store.now (operating_on space.now other.now (value_of store.now other.now))) }
{
    match store.value(other) {
        None => ready_by(alloc, Some(other)),
        Some(value) => ready_on(alloc, space, value),
    }
}

/// Whether a call with as many arguments as the built-in takes can step, of which these are the first two: it reads no more of them than
/// it takes. It refuses where there is no memory, which it needs for tests of equality, for domains and for what it waits for alone.
pub fn ready_given(
    alloc: Global,
    store: &Store,
    space: &SpaceName,
    builtin: Builtin,
    first: &Ident,
    second: &Ident,
) -> Result<Readiness, AllocError>
    ensures { IfOk result (λ r. (statements : List Statement) (given : ℕ → Ident) → Inputs builtin first.now second.now given → IsReady store.now (answer_ready (answer (record { statements = statements; space = space.now; view = store.now }) builtin given)) r) }
{
    match builtin {
        Builtin::Operation(operation) => ready_operation(alloc, store, operation, first, second),
        Builtin::Label => ready_one(alloc, store, first),
        Builtin::Width => ready_one(alloc, store, first),
        Builtin::Arity => ready_one(alloc, store, first),
        Builtin::NewName => Ok(Readiness::Steps),
        Builtin::Wait => ready_one(alloc, store, first),
        Builtin::NewCell => Ok(Readiness::Steps),
        Builtin::Access => ready_one(alloc, store, first),
        Builtin::Assign => ready_one(alloc, store, first),
        Builtin::Exchange => ready_one(alloc, store, first),
        Builtin::NewPort => Ok(Readiness::Steps),
        Builtin::Send => ready_one(alloc, store, first),
        Builtin::ByNeed => ready_one(alloc, store, first),
        Builtin::Show => Ok(Readiness::Steps),
        Builtin::NewSpace => ready_one(alloc, store, first),
        Builtin::Choose => ready_choose(alloc, store, first),
        Builtin::OnSpace(_) => ready_on_space(alloc, store, space, first),
        Builtin::Distinct => ready_distinct(alloc, store, first),
        Builtin::Distribute => ready_distributor(alloc, store, first, second),
    }
}

/// Whether a call with these arguments can step. It refuses where there is no memory.
pub fn ready_call(
    alloc: Global,
    store: &Store,
    space: &SpaceName,
    builtin: Builtin,
    arguments: &[Ident],
) -> Result<Readiness, AllocError>
    ensures { IfOk result (λ r. (statements : List Statement) → IsReady store.now (answer_ready (call_answer (record { statements = statements; space = space.now; view = store.now }) builtin arguments.now)) r) }
{
    if arguments.len() != arguments_of(builtin) {
        return Ok(Readiness::Steps);
    }
    let first = &arguments[0];
    ready_given(
        alloc,
        store,
        space,
        builtin,
        first,
        argument_or(arguments, 1, first),
    )
}
