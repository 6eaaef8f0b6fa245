//! The variables of a script, by their places in its record, and the vectors that list them.
ghost use Rattle.std.specs.Prelude.{◌≡◌, nat_eq, position, IfOk};
ghost use Rattle.oz_language.specs.Grammar.{of_list};
ghost use Rattle.oz_syntax.specs.View.{view, views};
ghost use Rattle.fd_form.specs.Parts.{each, place_of, places, vector_of};

use crate::names::name_of;
use oz_base::Sequence;
use oz_syntax::Phrase;
use std::alloc::{AllocError, Global};

/// The place of the variable of a name.
fn place_in(variables: &[u32], name: u32) -> Option<usize>
    ensures { result ≡ position (nat_eq name) variables.now }
{
    variables.iter().position(|variable| name == *variable)
}

/// The place of the variable that a phrase is.
pub fn place_of(variables: &[u32], phrase: &Phrase) -> Option<usize>
    ensures { result ≡ place_of variables.now (view phrase.now) }
{
    let name = name_of(phrase)?;
    place_in(variables, name)
}

/// The places of all variables, in their order.
#[tactic(auto, using(crate::proofs::PlaceLaws::range_more))]
pub fn places(alloc: Global, variables: &[u32]) -> Result<Sequence<usize>, AllocError>
    ensures { IfOk result (λ found. found ≡ places variables.now) }
{
    let mut found = Sequence::new(alloc);
    'places: for place in 0..variables.len() {
        found.push(place)?;
    }
    Ok(found)
}

/// The places of the elements of a list, if each is a variable.
fn each_place(
    alloc: Global,
    variables: &[u32],
    elements: &[Phrase],
) -> Result<Option<Sequence<usize>>, AllocError>
    ensures { IfOk result (λ found. found ≡ each (place_of variables.now) (of_list (views elements.now))) }
{
    let mut found = Sequence::new(alloc);
    'elements: for element in elements {
        let Some(place) = place_of(variables, element) else {
            return Ok(None);
        };
        found.push(place)?;
    }
    Ok(Some(found))
}

/// The variables of a vector: those of a list in brackets, or all, where it is the answer, the variable `root`.
pub fn vector_of(
    alloc: Global,
    root: u32,
    variables: &[u32],
    phrase: &Phrase,
) -> Result<Option<Sequence<usize>>, AllocError>
    ensures { IfOk result (λ found. found ≡ vector_of root variables.now (view phrase.now)) }
{
    match phrase {
        Phrase::Var { name, .. } => {
            if root == *name {
                Ok(Some(places(alloc, variables)?))
            } else {
                Ok(None)
            }
        }
        Phrase::List { elements, .. } => each_place(alloc, variables, elements),
        Phrase::Paren { inner, .. } => match inner.as_slice() {
            [value] => vector_of(alloc, root, variables, value),
            [] => Ok(None),
            [_, _, ..] => Ok(None),
        },
        _ => Ok(None),
    }
}
