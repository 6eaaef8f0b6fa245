//! What operators answer.
ghost use Rattle.std.specs.Prelude.{◌≡◌, IfOk};
ghost use Rattle.oz_semantics.specs.Entailment.{equality};
ghost use Rattle.oz_semantics.specs.Answers.{with_value};
ghost use Rattle.oz_semantics.specs.Builtins.{of_equality, of_operation};
ghost use Rattle.builtins.specs.Exact.{answer_of, erased, on_values, on_two};

use crate::answer::Answer;
use crate::domains::{bound, bound_each};
use crate::given::{gives_constant, truth};
use crate::integers::on_numbers;
use crate::records::selects;
use oz_base::Ident;
use oz_language::Operation;
use oz_semantics::Value;
use std::alloc::{AllocError, Global};
use term_store::Store;
use tree_equal::{Equality, test};

/// The output is whether two variables are equal as is asked.
fn compares(
    alloc: Global,
    store: &Store,
    left: &Ident,
    right: &Ident,
    output: &Ident,
    asked: bool,
) -> Result<Answer, AllocError>
    ensures { IfOk result (λ a. answer_of a ≡ erased (of_equality output.now asked (equality store.now left.now right.now))) }
{
    match test(alloc, store, left, right)? {
        Equality::Entailed => gives_constant(alloc, output, truth(asked)),
        Equality::Contradicted => gives_constant(alloc, output, truth(!asked)),
        Equality::Undecided(_) => Ok(Answer::Rests),
    }
}

/// An operation on two values.
fn on_values(
    alloc: Global,
    operation: Operation,
    output: &Ident,
    left: &Value,
    right: &Value,
) -> Result<Answer, AllocError>
    ensures { IfOk result (λ a. answer_of a ≡ erased (on_values operation output.now left.now right.now)) }
{
    match operation {
        Operation::Select => selects(alloc, output, left, right),
        _ => on_numbers(alloc, operation, output, left, right),
    }
}

/// An operation on the values of two inputs.
fn on_two(
    alloc: Global,
    store: &Store,
    operation: Operation,
    left: &Ident,
    right: &Ident,
    output: &Ident,
) -> Result<Answer, AllocError>
    ensures { IfOk result (λ a. answer_of a ≡ erased (on_two store.now operation left.now right.now output.now)) }
{
    let Some(first) = store.value(left) else {
        return Ok(Answer::Rests);
    };
    let Some(second) = store.value(right) else {
        return Ok(Answer::Rests);
    };
    on_values(alloc, operation, output, first, second)
}

/// An operation with these inputs and this output.
pub fn of_operation(
    alloc: Global,
    store: &Store,
    operation: Operation,
    left: &Ident,
    right: &Ident,
    output: &Ident,
) -> Result<Answer, AllocError>
    ensures { IfOk result (λ a. answer_of a ≡ erased (of_operation store.now operation left.now right.now output.now)) }
{
    match operation {
        Operation::Same => compares(alloc, store, left, right, output, true),
        Operation::Differs => compares(alloc, store, left, right, output, false),
        Operation::Bound => bound(alloc, store, left, right),
        Operation::BoundEach => bound_each(alloc, store, left, right),
        _ => on_two(alloc, store, operation, left, right, output),
    }
}
