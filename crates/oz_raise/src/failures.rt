//! Which terms are failures.
ghost use Rattle.std.specs.Prelude.{◌≡◌};
ghost use Rattle.oz_semantics.specs.Exceptions.{is_failure_label, is_failure};

use crate::words;
use oz_base::Ident;
use oz_language::{Constant, Literal, constant_eq};
use oz_semantics::Value;
use term_store::Store;

/// Whether the label of a value is the atom `failure`.
fn is_failure_label(value: &Value) -> bool
    ensures { result ≡ is_failure_label value.now }
{
    let failure = Constant::Literal(Literal::Atom(words::FAILURE));
    match value {
        Value::Constant(constant) => constant_eq(failure, *constant),
        Value::Record(record) => constant_eq(failure, Constant::Literal(record.get().label)),
        Value::Name(_)
        | Value::Procedure(_)
        | Value::Builtin(_)
        | Value::Cell(_)
        | Value::Port(_)
        | Value::Space(_) => false,
    }
}

/// Whether a variable is a failure in a store: determined, with the label `failure` (CTM 2.7).
pub fn is_failure(store: &Store, variable: &Ident) -> bool
    ensures { result ≡ is_failure store.now variable.now }
{
    match store.value(variable) {
        None => false,
        Some(value) => is_failure_label(value),
    }
}
