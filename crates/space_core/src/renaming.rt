//! What is kept of spaces under other names.
ghost use Rattle.std.specs.Prelude.{◌≡◌, [], map, slice_get, Some, IfOk, OnOk, option_copied};
ghost use Rattle.std.specs.Option.{option_map};
ghost use Rattle.oz_semantics.specs.Renamings.{renamed_tell};
ghost use Rattle.renamed_terms.specs.Meanings.{renaming_of};
ghost use Rattle.space_core.specs.Shown.{shown};
ghost use Rattle.space_core.specs.Renamed.{gives_name, IsRenamed, IsPlacedBy, ArePlacedBy};

use crate::constraints::Constraints;
use crate::fates::told_from;
use crate::homes::is_properly_above;
use crate::level::Level;
use crate::tree::add_level;
use cells_ports::Objects;
use oz_base::{Ident, Sequence, SpaceName};
use oz_semantics::Tell;
use renamed_terms::Renamed;
use renamings::Renaming;
use std::alloc::{AllocError, Global};
use term_store::Store;

/// Whether a space gets another name: of a copy those at and below the one that is copied, and of a merge those below the child.
fn gives_name(by: &Renaming, space: &SpaceName) -> bool
    ensures { result ≡ gives_name by.now space.now }
{
    match by {
        Renaming::Move { from, to: _ } => from.is_above(space),
        Renaming::Merge {
            child,
            parent: _,
            given: _,
        } => is_properly_above(child, space),
    }
}

/// A variable under its other name, if there is one.
fn renamed_variable(
    alloc: Global,
    by: &Renaming,
    variable: Option<&Ident>,
) -> Result<Ident, AllocError>
    ensures { IfOk result (λ after. option_map (renaming_of by.now).variable (option_copied variable.entry) ≡ Some after) }
{
    match variable {
        None => Err(AllocError),
        Some(variable) => variable.renamed(alloc, by),
    }
}

/// What the cells contain, under other names.
fn renamed_cells(alloc: Global, by: &Renaming, objects: &Objects) -> Result<Objects, AllocError>
    ensures { IfOk result (λ after. after ≡ record { cells = map (renaming_of by.now).variable objects.now.cells; ports = [] }) }
{
    let mut after = Objects::new();
    for cell in 0..objects.cell_count() {
        after.add_cell(alloc, renamed_variable(alloc, by, objects.content(cell))?)?;
    }
    Ok(after)
}

/// The cells and ports under other names.
pub fn renamed_objects(
    alloc: Global,
    by: &Renaming,
    objects: &Objects,
) -> Result<Objects, AllocError>
    ensures { IfOk result (λ after. after ≡ record { cells = map (renaming_of by.now).variable objects.now.cells; ports = map (renaming_of by.now).variable objects.now.ports }) }
{
    let mut after = renamed_cells(alloc, by, objects)?;
    for port in 0..objects.port_count() {
        after.add_port(alloc, renamed_variable(alloc, by, objects.end(port))?)?;
    }
    Ok(after)
}

/// What the space was told itself, under other names.
pub fn renamed_tells(
    alloc: Global,
    by: &Renaming,
    level: &Level,
) -> Result<Sequence<Tell>, AllocError>
    ensures { IfOk result (λ tells. tells ≡ map (renamed_tell (renaming_of by.now)) (shown level.now).tells) }
{
    let tells = told_from(alloc, level.constraints.store(), level.told_from)?;
    Sequence::from_vec(tells).renamed(alloc, by)
}

/// A store of these tells alone. It refuses where they are inconsistent.
fn store_of(alloc: Global, tells: &[Tell]) -> Result<Store, AllocError>
    ensures { IfOk result (λ store. store ≡ tells.now) }
{
    let mut store = Store::new(alloc);
    let mut touched = Vec::new(alloc);
    if !store.tell(alloc, tells, &mut touched)? {
        return Err(AllocError);
    }
    Ok(store)
}

/// The space under its other name, and what is in it under theirs. Its store holds only what it was told itself: what it sees is still
/// to be made. It refuses numbers above 2^64 - 1, and where what it was told is inconsistent under the new names: so it is only
/// where a name was told that no space gave out.
fn renamed_level(alloc: Global, by: &Renaming, level: &Level) -> Result<Level, AllocError>
    ensures { IfOk result (IsRenamed (renaming_of by.now) level.now) }
{
    let tells = renamed_tells(alloc, by, level)?;
    let store = store_of(alloc, tells.as_slice())?;
    let propagators = level.constraints.propagators().renamed(alloc, by)?;
    Ok(Level {
        space: by.space(alloc, &level.space)?,
        status: level.status.renamed(alloc, by)?,
        constraints: Constraints::of(alloc, store, propagators),
        told_from: 0,
        touched: Sequence::new(alloc),
        threads: level.threads.renamed(alloc, by)?,
        triggers: level.triggers.renamed(alloc, by)?,
        objects: renamed_objects(alloc, by, &level.objects)?,
        numbers: level.numbers,
        traced: false,
        knows_space: level.knows_space,
        bare: level.bare,
    })
}

/// Puts a space among others under its other name, if it has one.
fn add_renamed(
    alloc: Global,
    by: &Renaming,
    levels: &mut Vec<Level>,
    level: &Level,
) -> Result<(), AllocError>
    ensures { OnOk result (IsPlacedBy by.now level.now levels.old.items levels.new.items) }
{
    if !gives_name(by, &level.space) {
        return Ok(());
    }
    let renamed = renamed_level(alloc, by, level)?;
    add_level(levels, renamed)?;
    Ok(())
}

/// Puts the spaces that have other names among others under these. Where it is refused, some of them may be there.
pub fn add_all_renamed(
    alloc: Global,
    by: &Renaming,
    levels: &mut Vec<Level>,
    source: &[Level],
) -> Result<(), AllocError>
    ensures { OnOk result (ArePlacedBy by.now source.now levels.old.items levels.new.items) }
{
    for level in source {
        add_renamed(alloc, by, levels, level)?;
    }
    Ok(())
}
