//! What tells two values apart.
ghost use Rattle.std.specs.Prelude.{◌≡◌};
ghost use Rattle.oz_semantics.specs.Values.{same_form, builtin_eq, is_like, fields_of};

use oz_base::{Ident, same_ident, same_space};
use oz_language::{constant_eq, literal_eq, same_arity};
use oz_semantics::{Builtin, Record, Value};

/// Whether two records are of one label and one arity, with as many fields.
fn same_form(left: &Record, right: &Record) -> bool
    ensures { result ≡ same_form left.now right.now }
{
    literal_eq(left.label, right.label)
        && same_arity(left.features.as_slice(), right.features.as_slice())
        && left.fields.len() == right.fields.len()
}

fn builtin_eq(left: Builtin, right: Builtin) -> bool
    ensures { result ≡ builtin_eq left right }
{
    left == right
}

/// Whether two values are one but for their fields: one integer or literal, records of one label and one arity, and one and the same of
/// all other kinds.
pub fn is_like(left: &Value, right: &Value) -> bool
    ensures { result ≡ is_like left.now right.now }
{
    match (left, right) {
        (Value::Constant(a), Value::Constant(b)) => constant_eq(*a, *b),
        (Value::Record(a), Value::Record(b)) => same_form(a.get(), b.get()),
        (Value::Procedure(a), Value::Procedure(b)) => same_ident(&a.get().name, &b.get().name),
        (Value::Builtin(a), Value::Builtin(b)) => builtin_eq(*a, *b),
        (Value::Name(a), Value::Name(b)) => same_ident(a, b),
        (Value::Cell(a), Value::Cell(b)) => same_ident(a, b),
        (Value::Port(a), Value::Port(b)) => same_ident(a, b),
        (Value::Space(a), Value::Space(b)) => same_space(a, b),
        _ => false,
    }
}

/// The variables in the fields of a value.
pub fn fields_of(value: &Value) -> &[Ident]
    ensures { result.now ≡ fields_of value.now }
{
    match value {
        Value::Record(record) => record.get().fields.as_slice(),
        _ => &[],
    }
}
