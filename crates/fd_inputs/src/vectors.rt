//! Vectors.
ghost use Rattle.std.specs.Prelude.{◌≡◌, ◌⊎◌, suc, [], IfOk, length, option_map};
ghost use Rattle.std.specs.Vec.{vec_items};
ghost use Rattle.oz_base.specs.declared.names.Ident.{Ident};
ghost use Rattle.oz_semantics.specs.Inputs.{read};
ghost use Rattle.oz_semantics.specs.Store.{value_of};
ghost use Rattle.oz_semantics.specs.Vectors.{elements_in, list_elements, list_in, vector, vector_in};
ghost use Rattle.fd_inputs.specs.Answers.{input_of};
ghost use Rattle.fd_inputs.specs.Spines.{after_step, Rest};

use crate::input::Input;
use crate::values::{is_atom, pair_in};
use crate::words::{BAR, NIL};
use oz_base::{Copies, Ident, copies_of};
use oz_language::Constant;
use oz_semantics::Value;
use std::alloc::{AllocError, Global};
use term_store::Store;

/// What stands at a place of a list's spine.
#[derive(Drop)]
pub enum Step<'a> {
    Cell { head: &'a Ident, tail: &'a Ident },
    End,
    OtherKind,
    /// It is not determined.
    Unknown,
}

fn step_in<'a>(value: &'a Value) -> Step<'a>
    ensures { (rest : Rest) → (x : Ident) → list_in rest value.now ≡ after_step rest x result }
{
    if is_atom(value, NIL) {
        return Step::End;
    }
    match pair_in(value, BAR) {
        None => Step::OtherKind,
        Some((head, tail)) => Step::Cell { head, tail },
    }
}

fn step_at<'a>(store: &'a Store, x: &Ident) -> Step<'a>
    ensures { (rest : Rest) → read (list_in rest) x.now (value_of store.now x.now) ≡ after_step rest x.now result }
{
    match store.value(x) {
        None => Step::Unknown,
        Some(value) => step_in(value),
    }
}

/// The cell that is looked out for from a cell on, of so many that were passed: the last one at 1, 2, 4, 8, .. cells.
fn looked_out_for<'a>(before: &'a Ident, place: &'a Ident, cells: usize) -> &'a Ident
    ensures { (result.now ≡ place.now) ⊎ (result.now ≡ before.now) }
{
    if cells.is_power_of_two() {
        place
    } else {
        before
    }
}

/// The elements of a list. One that comes back to a cell is none: a cell that was passed is looked out for, each time further on.
fn list_elements(alloc: Global, store: &Store, x: &Ident) -> Result<Input<Vec<Ident>>, AllocError>
    ensures { IfOk result (λ input. input_of vec_items input ≡ list_elements store.now (suc (length store.now)) [] x.now) }
{
    let mut elements = Vec::new(alloc);
    let mut left = store.len();
    let mut place = x;
    let mut passed = x;
    'cells: loop {
        match step_at(store, place) {
            Step::Unknown => return Ok(Input::Unknown(place.copied(alloc)?)),
            Step::OtherKind => return Ok(Input::OtherKind),
            Step::End => return Ok(Input::Known(elements)),
            Step::Cell { head, tail } => {
                if left == 0 {
                    return Ok(Input::OtherKind);
                }
                if store.same(tail, passed) {
                    return Ok(Input::OtherKind);
                }
                elements.push(head.copied(alloc)?)?;
                passed = looked_out_for(passed, place, elements.len());
                left -= 1;
                place = tail;
            }
        }
    }
}

/// The elements of a vector that is no list.
fn elements_in(alloc: Global, value: &Value) -> Result<Option<Vec<Ident>>, AllocError>
    ensures { IfOk result (λ elements. option_map vec_items elements ≡ elements_in value.now) }
{
    match value {
        Value::Record(record) => Ok(Some(copies_of(alloc, record.get().fields.as_slice())?)),
        Value::Constant(Constant::Literal(_)) => Ok(Some(Vec::new(alloc))),
        _ => Ok(None),
    }
}

/// The elements of a variable that has this value.
fn vector_in(
    alloc: Global,
    store: &Store,
    x: &Ident,
    value: &Value,
) -> Result<Input<Vec<Ident>>, AllocError>
    ensures { IfOk result (λ input. input_of vec_items input ≡ vector_in store.now x.now value.now) }
{
    if pair_in(value, BAR).is_some() {
        return list_elements(alloc, store, x);
    }
    match elements_in(alloc, value)? {
        None => Ok(Input::OtherKind),
        Some(elements) => Ok(Input::Known(elements)),
    }
}

/// The elements of a vector. A list that comes back to a cell of it is none. It refuses where there is no memory.
pub fn vector(alloc: Global, store: &Store, x: &Ident) -> Result<Input<Vec<Ident>>, AllocError>
    ensures { IfOk result (λ input. input_of (λ xs. xs.items) input ≡ vector store.now x.now) }
{
    match store.value(x) {
        None => Ok(Input::Unknown(x.copied(alloc)?)),
        Some(value) => vector_in(alloc, store, x, value),
    }
}
