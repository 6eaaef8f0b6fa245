//! What a value is, where it is of a kind.
ghost use Rattle.std.specs.Prelude.{◌≡◌, ◌&&◌, pos, [], ◌∷◌};
ghost use Rattle.oz_language.specs.Constants.{constant_eq, literal_eq, same_arity};
ghost use Rattle.oz_language.specs.declared.kernel.Constant.TheVariants.{Int};
ghost use Rattle.oz_language.specs.declared.token.Literal.TheVariants.{Atom};
ghost use Rattle.oz_semantics.specs.Values.{atom, integer_in, integer_of, is_like, pair_in, two_of};
ghost use Rattle.fd_inputs.specs.Answers.{pair_seen};

use oz_base::Ident;
use oz_language::{Constant, Literal, constant_eq, literal_eq, same_arity};
use oz_semantics::{Record, Value};

/// Whether a value is the atom of a word.
pub fn is_atom(value: &Value, word: u32) -> bool
    ensures { result ≡ is_like (atom word) value.now }
{
    match value {
        Value::Constant(constant) => constant_eq(Constant::Literal(Literal::Atom(word)), *constant),
        _ => false,
    }
}

fn integer_of(constant: Constant) -> Option<i128>
    ensures { result ≡ integer_of constant }
{
    match constant {
        Constant::Int(integer) => Some(integer),
        Constant::Literal(_) => None,
    }
}

/// The integer that a value is, if it is one.
pub fn integer_in(value: &Value) -> Option<i128>
    ensures { result ≡ integer_in value.now }
{
    match value {
        Value::Constant(constant) => integer_of(*constant),
        _ => None,
    }
}

/// Whether a record has this label, and the features 1 and 2.
fn is_pair(pair: &Record, label: u32) -> bool
    ensures { result ≡ (literal_eq pair.now.label (Atom label) && same_arity pair.now.features (Int (pos 1) ∷ Int (pos 2) ∷ [])) }
{
    literal_eq(pair.label, Literal::Atom(label))
        && same_arity(
            pair.features.as_slice(),
            &[Constant::Int(1), Constant::Int(2)],
        )
}

fn two_of(fields: &[Ident]) -> Option<(&Ident, &Ident)>
    ensures { pair_seen result ≡ two_of fields.now }
{
    match fields {
        [x, y] => Some((x, y)),
        _ => None,
    }
}

/// The two fields of a pair with this label, if a value is one.
pub fn pair_in(value: &Value, label: u32) -> Option<(&Ident, &Ident)>
    ensures { pair_seen result ≡ pair_in label value.now }
{
    match value {
        Value::Record(record) => {
            if is_pair(record.get(), label) {
                two_of(record.get().fields.as_slice())
            } else {
                None
            }
        }
        _ => None,
    }
}
