//! What is read of a thread's space for what it makes.
ghost use Rattle.std.specs.Prelude.{◌≡◌, length, unwrap_or, option_copied, IfOk};
ghost use Rattle.environments.specs.Environments.{nowhere};
ghost use Rattle.oz_semantics.specs.Configurations.{layer_of, content_of, end_of};

use oz_base::{Copies, Ident, SpaceName};
use oz_semantics::Next;
use space_core::Levels;
use std::alloc::{AllocError, Global};

/// The numbers that the space gives out next.
pub fn next_of(levels: &Levels, space: &SpaceName) -> Next
    ensures { result ≡ (layer_of levels.now space.now).next }
{
    match levels.place(space) {
        Some(place) => levels.next_at(place),
        None => Next {
            variable: 1,
            thread: 1,
            procedure: 1,
            name: 1,
            child: 1,
        },
    }
}

/// How many cells the space has: the number that its next one gets.
pub fn cell_count(levels: &Levels, space: &SpaceName) -> u64
    ensures { result ≡ length (layer_of levels.now space.now).cells }
{
    match levels.place(space) {
        Some(place) => levels.cell_count_at(place),
        None => 0,
    }
}

/// How many ports the space has.
pub fn port_count(levels: &Levels, space: &SpaceName) -> u64
    ensures { result ≡ length (layer_of levels.now space.now).ports }
{
    match levels.place(space) {
        Some(place) => levels.port_count_at(place),
        None => 0,
    }
}

/// What stands for a variable that is not there.
fn nowhere(alloc: Global) -> Result<Ident, AllocError>
    ensures { IfOk result (λ variable. variable ≡ nowhere) }
{
    Ok(Ident {
        space: SpaceName::top().child(alloc, 0)?,
        number: 0,
    })
}

fn copied_or_nowhere(alloc: Global, variable: Option<&Ident>) -> Result<Ident, AllocError>
    ensures { IfOk result (λ copy. copy ≡ unwrap_or (option_copied variable.entry) nowhere) }
{
    match variable {
        None => nowhere(alloc),
        Some(variable) => variable.copied(alloc),
    }
}

/// What a cell of the space contains.
pub fn content_of(
    alloc: Global,
    levels: &Levels,
    space: &SpaceName,
    cell: u64,
) -> Result<Ident, AllocError>
    ensures { IfOk result (λ content. content ≡ content_of (layer_of levels.now space.now) cell) }
{
    match levels.place(space) {
        None => nowhere(alloc),
        Some(place) => copied_or_nowhere(alloc, levels.content_at(place, cell)),
    }
}

/// Where the stream of a port of the space ends.
pub fn end_of(
    alloc: Global,
    levels: &Levels,
    space: &SpaceName,
    port: u64,
) -> Result<Ident, AllocError>
    ensures { IfOk result (λ end. end ≡ end_of (layer_of levels.now space.now) port) }
{
    match levels.place(space) {
        None => nowhere(alloc),
        Some(place) => copied_or_nowhere(alloc, levels.end_at(place, port)),
    }
}
