//! The text that is shown of a term.
ghost use Rattle.std.specs.Prelude.{◌≡◌, ℕ, IfOk};
ghost use Rattle.oz_semantics.specs.Names.{root_of};
ghost use Rattle.oz_semantics.specs.Configurations.{view};
ghost use Rattle.oz_semantics.specs.Texts.{Printed, no_text, term_text};
ghost use Rattle.oz_semantics.specs.Search.{state_text};
ghost use Rattle.term_text.specs.TextWithin.{IsTextWithin};
ghost use Rattle.oz_semantics.specs.declared.configuration.Configuration.{Configuration};
ghost use Rattle.oz_machine.specs.Answers.{PrintsWithin};

use oz_base::{Copies, Ident, Sequence, SpaceName, Words};
use oz_semantics::State;
use space_core::Levels;
use std::alloc::{AllocError, Global};
use term_store::Store;

/// A text, and what printing it costs: a step for each node of its term.
#[derive(Drop)]
pub struct Text {
    pub bytes: Sequence<u8>,
    pub steps: u64,
}

/// A node is a step.
fn counted(text: Option<term_text::Text>) -> Option<Text>
    ensures { (printed : Printed) (fuel : ℕ) → IsTextWithin printed fuel text → PrintsWithin printed fuel result }
{
    match text {
        None => None,
        Some(text) => Some(Text {
            bytes: text.bytes,
            steps: text.nodes,
        }),
    }
}

/// The term of a variable, of what a space sees.
pub fn variable_text(
    alloc: Global,
    words: &Words,
    store: &Store,
    variable: &Ident,
    fuel: u64,
) -> Result<Option<Text>, AllocError>
    ensures { IfOk result (PrintsWithin (term_text words.now store.now variable.now) fuel) }
{
    let text = term_text::term_text(alloc, words, store, variable, fuel)?;
    Ok(counted(text))
}

fn nothing(alloc: Global) -> Option<Text>
    ensures { (fuel : ℕ) → PrintsWithin no_text fuel result }
{
    Some(Text {
        bytes: Sequence::new(alloc),
        steps: 0,
    })
}

/// The term of the space's root variable.
fn root_text(
    alloc: Global,
    words: &Words,
    space: &SpaceName,
    store: &Store,
    fuel: u64,
) -> Result<Option<Text>, AllocError>
    ensures { IfOk result (PrintsWithin (term_text words.now store.now (root_of space.now)) fuel) }
{
    let root = Ident {
        space: space.copied(alloc)?,
        number: 0,
    };
    variable_text(alloc, words, store, &root, fuel)
}

/// What is shown of a space in this state. None exactly where that costs more than the fuel.
pub fn state_text(
    alloc: Global,
    words: &Words,
    levels: &Levels,
    space: &SpaceName,
    state: &State,
    fuel: u64,
) -> Result<Option<Text>, AllocError>
    ensures { (c : Configuration) → view c.layers space.now ≡ view levels.now space.now → IfOk result (PrintsWithin (state_text words.now c space.now state.now) fuel) }
{
    let Some(place) = levels.place(space) else {
        return Err(AllocError);
    };
    match state {
        State::Solved | State::Stuck => {
            root_text(alloc, words, space, levels.store_at(place), fuel)
        }
        State::Raised(exception) => {
            variable_text(alloc, words, levels.store_at(place), exception, fuel)
        }
        State::Running
        | State::Suspended
        | State::Failed
        | State::Merged
        | State::Alternatives(_) => Ok(nothing(alloc)),
    }
}
