//! Answers that give an output, and lists of one variable.
ghost use Rattle.std.specs.Prelude.{◌≡◌, ◌∷◌, [], IfOk};
ghost use Rattle.oz_semantics.specs.Answers.{gives_constant};
ghost use Rattle.oz_semantics.specs.Builtins.{truth};
ghost use Rattle.builtins.specs.Exact.{answer_of};

use crate::answer::{Act, Answer};
use oz_base::{Copies, Ident, Sequence};
use oz_language::{Constant, Literal};
use oz_semantics::Value;
use std::alloc::{AllocError, Global};

/// The output is an integer or a literal.
pub fn gives_constant(
    alloc: Global,
    output: &Ident,
    constant: Constant,
) -> Result<Answer, AllocError>
    ensures { IfOk result (λ a. answer_of a ≡ gives_constant output.now constant) }
{
    Ok(Answer::Acts(Act::GivesValue {
        variable: output.copied(alloc)?,
        value: Value::Constant(constant),
    }))
}

/// A truth value.
pub fn truth(held: bool) -> Constant
    ensures { result ≡ truth held }
{
    if held {
        Constant::Literal(Literal::True)
    } else {
        Constant::Literal(Literal::False)
    }
}

/// A list of one variable.
pub fn single(alloc: Global, variable: &Ident) -> Result<Sequence<Ident>, AllocError>
    ensures { IfOk result (λ xs. xs ≡ variable.now ∷ []) }
{
    let mut variables = Sequence::new(alloc);
    variables.push(variable.copied(alloc)?)?;
    Ok(variables)
}
