//! The features of a record's fields, and those that stand twice.
ghost use Rattle.std.specs.Prelude.{◌≡◌, ◌<◌, ◌≤◌, ◌+◌, ◌^◌, ◌++◌, ◌∷◌, [], pos, not, suc, length, IfOk, OnOk, if◌then◌else◌};
ghost use Rattle.std.specs.List.{list_any};
ghost use Rattle.std.specs.Cmp.{partial_equiv_from_equiv};
ghost use Rattle.std.specs.Hash as fed;
ghost use Rattle.indexmap.specs.IndexSet.{insert_key};
ghost use Rattle.oz_language.specs.Grammar.{Phrases, more, of_list};
ghost use Rattle.oz_language.specs.Refusals.{features, feature_faults, repeat_faults, place_of, place_of_first, not_linear};
ghost use Rattle.oz_language.specs.Constants.{constant_eq};
ghost use Rattle.oz_language.specs.declared.kernel.Constant.{Constant};
ghost use Rattle.oz_syntax.specs.View.{view, views};
ghost use Rattle.oz_scope.specs.Declares.{key_of};
ghost use Rattle.oz_scope.specs.FeatureLaws.{literal_number, feature_number, constant_eq-equivalence, feature_alike};
ghost use Rattle.oz_scope.specs.Keeps.{kept};

use crate::found::Found;
use indexmap::IndexSet;
use oz_language::{Constant, Fault, Literal, RefusalKind, constant_eq};
use oz_syntax::Phrase;
use std::alloc::{AllocError, Global};
use std::hash::{Hash, Hasher};
use std::marker::Model;

fn literal_number(literal: Literal) -> u32
    ensures { result ≡ literal_number literal }
{
    match literal {
        Literal::Atom(number) => number,
        Literal::True => 0,
        Literal::False => 1,
        Literal::Unit => 2,
    }
}

/// The number that stands for a feature in a table. An integer and an atom may have the same.
fn feature_number(feature: Constant) -> i128
    ensures { result ≡ feature_number feature }
{
    match feature {
        Constant::Int(value) => value,
        Constant::Literal(literal) => i128::from(literal_number(literal)),
    }
}

/// A feature as the key of a table.
#[derive(Drop)]
pub struct Feature {
    constant: Constant,
}

impl Model for Feature {
    ghost Value = { Constant };

    ghost view = { λ f. f.constant };
}

impl PartialEq for Feature {
    ghost eq = { constant_eq };

    ghost laws = { partial_equiv_from_equiv constant_eq-equivalence };

    fn eq(&self, other: &Feature) -> bool {
        constant_eq(self.constant, other.constant)
    }
}

impl Eq for Feature {
    ghost laws = { constant_eq-equivalence };
}

impl Hash for Feature {
    ghost hash_input = { λ f. fed.i128 (feature_number f) };

    ghost respects_eq = { feature_alike };

    fn hash<H: Hasher>(&self, state: &mut H) {
        state.write_i128(feature_number(self.constant));
    }
}

/// Where an expression or a pattern begins. It goes down on the left only.
#[cycle(places)]
fn place_of(phrase: &Phrase) -> usize
    ensures { result ≡ place_of (view phrase.now) }
{
    match phrase {
        Phrase::Var { at, .. } => *at,
        Phrase::Any { at } => *at,
        Phrase::Int { at, .. } => *at,
        Phrase::String { at, .. } => *at,
        Phrase::Literal { at, .. } => *at,
        Phrase::Record { at, .. } => *at,
        Phrase::Keyed { at, .. } => *at,
        Phrase::List { at, .. } => *at,
        Phrase::Paren { at, .. } => *at,
        Phrase::Binary { left, .. } => place_of(left),
        Phrase::Bars { elements } => place_of_first(elements),
        Phrase::Hashes { elements } => place_of_first(elements),
        Phrase::Select { record, .. } => place_of(record),
        Phrase::Access { at, .. } => *at,
        Phrase::Fail { at } => *at,
        Phrase::Raise { at, .. } => *at,
        Phrase::Call { at, .. } => *at,
        Phrase::Proc { at, .. } => *at,
        Phrase::Fun { at, .. } => *at,
        Phrase::Local { at, .. } => *at,
        Phrase::Thread { at, .. } => *at,
        Phrase::Choice { at, .. } => *at,
        Phrase::If { at, .. } => *at,
        Phrase::IfElse { at, .. } => *at,
        Phrase::Case { at, .. } => *at,
        Phrase::CaseElse { at, .. } => *at,
        Phrase::Skip
        | Phrase::Connected { .. }
        | Phrase::Relate { .. }
        | Phrase::Dollar
        | Phrase::Head { .. }
        | Phrase::Arm { .. }
        | Phrase::Clause { .. }
        | Phrase::Try { .. }
        | Phrase::Body { .. } => 0,
    }
}

/// Where the first of these begins.
#[cycle(places)]
fn place_of_first(phrases: &[Phrase]) -> usize
    ensures { result ≡ place_of_first (of_list (views phrases.now)) }
{
    match phrases.first() {
        Some(phrase) => place_of(phrase),
        None => 0,
    }
}

fn key_of(field: &Phrase) -> Option<(Constant, usize)>
    ensures { result ≡ key_of (view field.now) }
{
    match field {
        Phrase::Keyed { key, at, .. } => Some((*key, *at)),
        _ => None,
    }
}

/// Puts the feature of a field to those before it, which is this number where it has no key, and gives the number that the next
/// field without a key has.
#[tactic(auto, using(crate::proofs::FieldLaws::features_keyed, crate::proofs::FieldLaws::features_next))]
fn add_feature(
    places: &mut Vec<(Constant, usize)>,
    field: &Phrase,
    number: usize,
) -> Result<usize, AllocError>
    requires { number + 1 < 2 ^ 63 }
    ensures features { IfOk result (λ next. (ps : Phrases) → places.new.items ++ features next ps ≡ places.old.items ++ features number (more (view field.now) ps)) }
    ensures next { IfOk result (λ next. next ≤ number + 1) }
{
    match key_of(field) {
        Some(feature) => {
            places.push(feature)?;
            Ok(number)
        }
        None => {
            places.push((Constant::Int(number as i128), place_of(field)))?;
            Ok(number + 1)
        }
    }
}

/// The features of the fields, each with its place.
fn features_of(alloc: Global, fields: &[Phrase]) -> Result<Vec<(Constant, usize)>, AllocError>
    ensures { IfOk result (λ fs. fs.items ≡ features 1 (of_list (views fields.now))) }
{
    let mut places = Vec::new(alloc);
    let mut number = 1;
    'fields: for field in fields {
        number = add_feature(&mut places, field, number)?;
    }
    Ok(places)
}

/// A feature with its place, after those that stand before it in its record.
fn meet_feature(
    found: &mut Found,
    seen: &mut IndexSet<Feature>,
    constant: Constant,
    at: usize,
) -> Result<(), AllocError>
    ensures found { OnOk result (found.new ≡ kept (if list_any (constant_eq constant) seen.old.keys then not_linear at ∷ [] else []) found.old) }
    ensures seen { OnOk result (seen.new.keys ≡ insert_key constant_eq seen.old.keys constant) }
{
    let is_new = seen.insert(Feature { constant })?;
    if !is_new {
        found.meet(Fault {
            kind: RefusalKind::Linear,
            at,
        });
    }
    Ok(())
}

/// Meets each of these features that stands before among them.
#[tactic(auto, using(crate::proofs::Keeping::kept_append, crate::proofs::FieldLaws::repeats_put))]
fn meet_repeats(
    alloc: Global,
    found: &mut Found,
    places: &[(Constant, usize)],
) -> Result<(), AllocError>
    ensures { OnOk result (found.new ≡ kept (repeat_faults constant_eq [] places.now) found.old) }
{
    let mut seen = IndexSet::new(alloc);
    'places: for (constant, at) in places {
        meet_feature(found, &mut seen, *constant, *at)?;
    }
    Ok(())
}

/// Meets each feature of a record that stands before in it.
pub fn meet_repeated_features(
    alloc: Global,
    found: &mut Found,
    fields: &[Phrase],
) -> Result<(), AllocError>
    ensures { OnOk result (found.new ≡ kept (feature_faults (of_list (views fields.now))) found.old) }
{
    let places = features_of(alloc, fields)?;
    meet_repeats(alloc, found, &places)
}
