//! What is kept of the spaces where one of them becomes a part of its parent.
ghost use Rattle.std.specs.Prelude.{◌≡◌, ◌<◌, ◌+◌, ◌-◌, ◌++◌, ◌∷◌, [], length, map, Some, IfOk, OnOk, option_copied};
ghost use Rattle.oz_semantics.specs.Names.{root_of};
ghost use Rattle.oz_semantics.specs.Renamings.{renamed_tell};
ghost use Rattle.oz_semantics.specs.declared.value.Tell.TheVariants as tell;
ghost use Rattle.renamed_terms.specs.Meanings.{renaming_of, given_out_by};
ghost use Rattle.renamings.specs.declared.renaming.Renaming.TheVariants as renaming;
ghost use Rattle.space_core.specs.Anew.{IsToldAlone};
ghost use Rattle.space_core.specs.Merging.{joining_by, IsMergedAway};
ghost use Rattle.space_core.specs.Shown.{shown, IsQuiet};

use crate::constraints::Constraints;
use crate::edits::drop_top;
use crate::homes::all_home;
use crate::level::{Level, Numbers};
use crate::renaming::{renamed_objects, renamed_tells};
use crate::telling::tell;
use crate::threads::Threads;
use cells_ports::Objects;
use oz_base::{Copies, Ident, Sequence, SpaceName};
use oz_semantics::{Status, Tell};
use renamed_terms::Renamed;
use renamings::{GivenOut, Renaming};
use std::alloc::{AllocError, Global};

/// One less, or none.
fn one_less(number: u64) -> u64
    ensures { result ≡ number - 1 }
{
    if number == 0 {
        return 0;
    }
    number - 1
}

fn sum(number: u64, more: u64) -> Result<u64, AllocError>
    ensures { IfOk result (λ sum. sum ≡ number + more) }
{
    match number.checked_add(more) {
        Some(sum) => Ok(sum),
        None => Err(AllocError),
    }
}

/// How many numbers of each kind a space has given out.
fn given_out(level: &Level) -> GivenOut
    ensures { result ≡ given_out_by (shown level.now) }
{
    GivenOut {
        variables: level.numbers.variable,
        procedures: one_less(level.numbers.procedure),
        names: one_less(level.numbers.name),
        cells: level.objects.cell_count(),
        ports: level.objects.port_count(),
        children: one_less(level.numbers.child),
    }
}

/// Where the names of a child go that becomes a part of its parent.
pub fn merging(alloc: Global, child: &Level, parent: &Level) -> Result<Renaming, AllocError>
    ensures { IfOk result (λ by. by ≡ renaming.Merge child.now.space parent.now.space (given_out_by (shown parent.now))) }
{
    Ok(Renaming::Merge {
        child: child.space.copied(alloc)?,
        parent: parent.space.copied(alloc)?,
        given: given_out(parent),
    })
}

/// The root variable of a space.
fn root_of(alloc: Global, space: &SpaceName) -> Result<Ident, AllocError>
    ensures { IfOk result (λ root. root ≡ root_of space.now) }
{
    Ok(Ident {
        space: space.copied(alloc)?,
        number: 0,
    })
}

/// What the parent is told: what the child was told, and that the variable is the former root variable of the child.
pub fn merge_tells(
    alloc: Global,
    by: &Renaming,
    child: &Level,
    variable: Ident,
) -> Result<Vec<Tell>, AllocError>
    ensures { IfOk result (λ tells. tells.items ≡ map (renamed_tell (renaming_of by.now)) (shown child.now).tells
        ++ tell.Equal variable ((renaming_of by.now).variable (root_of child.now.space)) ∷ []) }
{
    let mut tells = renamed_tells(alloc, by, child)?.into_vec();
    let root = root_of(alloc, &child.space)?;
    tells.push(Tell::Equal {
        left: variable,
        right: root.renamed(alloc, by)?,
    })?;
    Ok(tells)
}

/// The next numbers of a space that all of another one came to.
fn numbers_with(own: Numbers, other: Numbers) -> Result<Numbers, AllocError>
    ensures { IfOk result (λ both. both ≡ record {
      variable = own.variable + other.variable;
      procedure = own.procedure + (other.procedure - 1);
      name = own.name + (other.name - 1);
      child = own.child + (other.child - 1);
    }) }
{
    Ok(Numbers {
        variable: sum(own.variable, other.variable)?,
        procedure: sum(own.procedure, one_less(other.procedure))?,
        name: sum(own.name, one_less(other.name))?,
        child: sum(own.child, one_less(other.child))?,
    })
}

/// What the cells of another space contain comes behind those.
fn add_cells(alloc: Global, objects: &mut Objects, other: &Objects) -> Result<(), AllocError>
    ensures { OnOk result (objects.new ≡ record objects.old { cells = objects.old.cells ++ other.now.cells }) }
{
    for cell in 0..other.cell_count() {
        objects.add_cell(alloc, there(alloc, other.content(cell))?)?;
    }
    Ok(())
}

/// Where the streams of the ports of another space end comes behind those.
fn add_ports(alloc: Global, objects: &mut Objects, other: &Objects) -> Result<(), AllocError>
    ensures { OnOk result (objects.new ≡ record objects.old { ports = objects.old.ports ++ other.now.ports }) }
{
    for port in 0..other.port_count() {
        objects.add_port(alloc, there(alloc, other.end(port))?)?;
    }
    Ok(())
}

/// A variable, if there is one.
fn there(alloc: Global, variable: Option<&Ident>) -> Result<Ident, AllocError>
    ensures { IfOk result (λ found. option_copied variable.entry ≡ Some found) }
{
    match variable {
        None => Err(AllocError),
        Some(variable) => variable.copied(alloc),
    }
}

/// The statement on top of a thread's stack is taken off, and all that is in a child comes to what is in the space. Where it is refused,
/// some of it may have come.
fn join(
    alloc: Global,
    by: &Renaming,
    level: &mut Level,
    number: u64,
    child: &Level,
) -> Result<(), AllocError>
    ensures { OnOk result (IsQuiet (joining_by (renaming_of by.now) (shown child.now) number) level.old level.new) }
{
    drop_top(level, number);
    let objects = renamed_objects(alloc, by, &child.objects)?;
    let triggers = child.triggers.renamed(alloc, by)?;
    let propagators = child.constraints.propagators().renamed(alloc, by)?;
    level.threads.join(alloc, by, &child.threads)?;
    level.triggers.append(triggers.into_vec())?;
    level.constraints.append(alloc, propagators.into_vec())?;
    add_cells(alloc, &mut level.objects, &objects)?;
    add_ports(alloc, &mut level.objects, &objects)?;
    level.numbers = numbers_with(level.numbers, child.numbers)?;
    Ok(())
}

/// The statement on top of a thread's stack is taken off, all that is in a child comes to what is in the space at the place, and the
/// space is told this. The spaces below it still see what they saw. False exactly where it is inconsistent with what the space sees.
pub fn join_told(
    alloc: Global,
    by: &Renaming,
    levels: &mut Vec<Level>,
    place: usize,
    number: u64,
    child: &Level,
    tells: &[Tell],
) -> Result<bool, AllocError>
    requires { place < length levels.old.items }
    ensures { IfOk result (IsToldAlone (joining_by (renaming_of by.now) (shown child.now) number) place tells.now levels.old.items levels.new.items) }
{
    join(alloc, by, &mut levels[place], number, child)?;
    let home = all_home(levels.as_slice(), &levels[place].space, tells);
    let told = tell(alloc, &mut levels[place], home, tells)?;
    Ok(told)
}

/// Of the space its name is left, and nothing is kept of what it sees.
pub fn merge_away(alloc: Global, level: &mut Level)
    ensures { IsMergedAway level.old level.new }
{
    level.status = Status::Merged;
    level.constraints = Constraints::new(alloc);
    level.told_from = 0;
    level.touched = Sequence::new(alloc);
    level.threads = Threads::new(alloc);
    level.triggers = Sequence::new(alloc);
    level.objects = Objects::new();
    level.numbers = Numbers {
        variable: 1,
        procedure: 1,
        name: 1,
        child: 1,
    };
    level.traced = true;
    level.knows_space = false;
    level.bare = true;
}
