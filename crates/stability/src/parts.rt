//! Where all that is below a space ends: it stands together, right behind the space.
ghost use Rattle.std.specs.Prelude.{◌≡◌, ◌+◌, ◌<◌, ◌≤◌, length};
ghost use Rattle.space_core.specs.Levels.{OfLayer};
ghost use Rattle.oz_semantics.specs.Spaces.{layers_below};
ghost use Rattle.stability.specs.Parts.{part};

use space_core::Levels;

/// The place behind that of a space.
pub fn next_place(levels: &Levels, place: usize) -> usize
    requires { place < length levels.now }
    ensures { result ≡ place + 1 }
{
    let count = levels.len();
    prove!(place < count);
    place + 1
}

/// The first place behind that of a space at which no space below it stands.
pub fn end_of(levels: &Levels, place: usize) -> usize
    requires { place < length levels.now }
    ensures behind { place < result }
    ensures within { result ≤ length levels.now }
    ensures all { OfLayer levels.now place (λ l. layers_below levels.now l.space ≡ part levels.now place result) }
{
    levels.is_tree();
    let space = levels.space_at(place);
    'below: for behind in next_place(levels, place)..levels.len() {
        if !space.is_above(levels.space_at(behind)) {
            return behind;
        }
    }
    levels.len()
}
