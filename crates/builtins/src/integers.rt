//! Operations on integers.
ghost use Rattle.std.specs.Prelude.{◌≡◌, IfOk};
ghost use Rattle.oz_semantics.specs.Answers.{gives_constant};
ghost use Rattle.oz_semantics.specs.Builtins.{gives_number, truth};
ghost use Rattle.builtins.specs.Exact.{answer_of, erased, on_integers, on_numbers};

use crate::answer::Answer;
use crate::given::{gives_constant, truth};
use oz_base::{Ident, NumFault, difference, product, quotient, remainder, sum};
use oz_language::{Constant, Operation};
use oz_semantics::{RaiseKind, Value};
use std::alloc::{AllocError, Global};

/// The output is what an operation on integers results in.
fn gives_number(
    alloc: Global,
    output: &Ident,
    number: Result<i128, NumFault>,
) -> Result<Answer, AllocError>
    ensures { IfOk result (λ a. answer_of a ≡ erased (gives_number output.now number)) }
{
    match number {
        Ok(number) => gives_constant(alloc, output, Constant::Int(number)),
        Err(NumFault::Overflow) => Ok(Answer::RaisesKind(RaiseKind::Overflow)),
        Err(NumFault::DivZero) => Ok(Answer::RaisesKind(RaiseKind::DivZero)),
    }
}

/// The output is whether something holds.
fn gives_truth(alloc: Global, output: &Ident, held: bool) -> Result<Answer, AllocError>
    ensures { IfOk result (λ a. answer_of a ≡ gives_constant output.now (truth held)) }
{
    gives_constant(alloc, output, truth(held))
}

/// An operation on two integers. One that is no operation on integers waits for nothing.
fn on_integers(
    alloc: Global,
    operation: Operation,
    output: &Ident,
    left: i128,
    right: i128,
) -> Result<Answer, AllocError>
    ensures { IfOk result (λ a. answer_of a ≡ erased (on_integers operation output.now left right)) }
{
    match operation {
        Operation::Plus => gives_number(alloc, output, sum(left, right)),
        Operation::Minus => gives_number(alloc, output, difference(left, right)),
        Operation::Times => gives_number(alloc, output, product(left, right)),
        Operation::Div => gives_number(alloc, output, quotient(left, right)),
        Operation::Mod => gives_number(alloc, output, remainder(left, right)),
        Operation::Less => gives_truth(alloc, output, left < right),
        Operation::AtMost => gives_truth(alloc, output, left <= right),
        Operation::Greater => gives_truth(alloc, output, left > right),
        Operation::AtLeast => gives_truth(alloc, output, left >= right),
        _ => Ok(Answer::Rests),
    }
}

/// An operation on two values that are integers.
pub fn on_numbers(
    alloc: Global,
    operation: Operation,
    output: &Ident,
    left: &Value,
    right: &Value,
) -> Result<Answer, AllocError>
    ensures { IfOk result (λ a. answer_of a ≡ erased (on_numbers operation output.now left.now right.now)) }
{
    match (left, right) {
        (Value::Constant(Constant::Int(i)), Value::Constant(Constant::Int(j))) => {
            on_integers(alloc, operation, output, *i, *j)
        }
        _ => Ok(Answer::RaisesKind(RaiseKind::BadKind)),
    }
}
