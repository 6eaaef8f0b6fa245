//! One node of a pattern against the variable in its place.
ghost use Rattle.std.specs.Prelude.{◌≡◌, List, option_copied};
ghost use Rattle.oz_base.specs.declared.names.Ident.{Ident};
ghost use Rattle.oz_semantics.specs.Matching.{Match, is_as_asked, match_value, match_node};
ghost use Rattle.matching.specs.Steps.{after_step};

use oz_base::{Ident, Sequence};
use oz_language::{Constant, Literal, Piece, constant_eq, literal_eq, same_arity};
use oz_semantics::Value;
use term_store::{Store, fields_of};

/// What one node comes to.
#[derive(Drop)]
pub enum Step<'a> {
    /// The match goes on with these variables.
    Fields(&'a [Ident]),
    Differs,
    /// The variable in the node's place is not determined yet.
    Waits,
}

/// Whether a value is this integer or literal.
fn is_constant(asked: Constant, value: &Value) -> bool
    ensures { result ≡ is_as_asked (Piece.Constant asked) value.now }
{
    match value {
        Value::Constant(constant) => constant_eq(asked, *constant),
        _ => false,
    }
}

/// Whether a value is a record of this label and arity.
fn is_record(label: Literal, features: &Sequence<Constant>, value: &Value) -> bool
    ensures { result ≡ is_as_asked (Piece.Record label features.now) value.now }
{
    match value {
        Value::Record(record) => {
            literal_eq(label, record.get().label)
                && same_arity(features.as_slice(), record.get().features.as_slice())
        }
        _ => false,
    }
}

/// Whether a value is as a node asks, its fields apart.
fn is_as_asked(piece: &Piece, value: &Value) -> bool
    ensures { result ≡ is_as_asked piece.now value.now }
{
    match piece {
        Piece::Variable(_) => true,
        Piece::Any => true,
        Piece::Constant(constant) => is_constant(*constant, value),
        Piece::Record { label, features } => is_record(*label, features, value),
    }
}

/// A node that asks for a value.
fn against_value<'a>(piece: &Piece, value: Option<&'a Value>) -> Step<'a>
    ensures { (next : List Ident → Match) → (x : Ident) → match_value next x piece.now (option_copied value.entry) ≡ after_step next x result }
{
    match value {
        None => Step::Waits,
        Some(value) => {
            if is_as_asked(piece, value) {
                Step::Fields(fields_of(value))
            } else {
                Step::Differs
            }
        }
    }
}

/// A node against the variable in its place.
pub fn node_step<'a>(store: &'a Store, piece: &Piece, subject: &Ident) -> Step<'a>
    ensures { (next : List Ident → Match) → match_node store.now next subject.now piece.now ≡ after_step next subject.now result }
{
    match piece {
        Piece::Variable(_) => Step::Fields(&[]),
        Piece::Any => Step::Fields(&[]),
        Piece::Constant(_) => against_value(piece, store.value(subject)),
        Piece::Record { .. } => against_value(piece, store.value(subject)),
    }
}
