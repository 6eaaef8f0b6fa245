//! What a step does with the spaces in the thread's own (CTM 12.5; Schulte 4).
ghost use Rattle.std.specs.Prelude.{◌≡◌, true, is_some, IfOk, OnOk, OnErr};
ghost use Rattle.oz_semantics.specs.Answers.{Commits, Copies, Injects, TakesIn};
ghost use Rattle.oz_semantics.specs.Configurations.{layer_at};
ghost use Rattle.builtins.specs.Answers.{edit_of};
ghost use Rattle.space_core.specs.SpaceEdits.{IsEdited, IsEditedBy};

use crate::searching::commit_in;
use builtins::Edit;
use oz_base::{Copies as _, Ident, SpaceName};
use oz_language::Statement;
use space_core::Levels;
use std::alloc::{AllocError, Global};

/// The variable is a copy of a child.
fn copy(
    alloc: Global,
    levels: &mut Levels,
    id: &Ident,
    child: &SpaceName,
    variable: &Ident,
) -> Result<bool, AllocError>
    ensures ok { IfOk result (IsEdited id.now (Copies child.now variable.now) levels.old levels.new) }
    ensures err { OnErr result (levels.new ≡ levels.old) }
{
    if !levels.has_child(&id.space, child) {
        return Err(AllocError);
    }
    levels.copy_told(alloc, id, child, variable.copied(alloc)?)
}

/// In a child the procedure is applied to the root variable.
fn inject(
    alloc: Global,
    levels: &mut Levels,
    id: &Ident,
    child: &SpaceName,
    procedure: &Ident,
) -> Result<bool, AllocError>
    ensures ok { IfOk result (IsEdited id.now (Injects child.now procedure.now) levels.old levels.new) }
    ensures err { OnErr result (levels.new ≡ levels.old) }
{
    if !levels.has_child(&id.space, child) {
        return Err(AllocError);
    }
    levels.inject(alloc, id, child, procedure.copied(alloc)?)?;
    Ok(true)
}

/// A child becomes a part of the thread's space, and the variable is its root variable.
fn take_in(
    alloc: Global,
    levels: &mut Levels,
    id: &Ident,
    child: &SpaceName,
    variable: &Ident,
) -> Result<bool, AllocError>
    ensures ok { IfOk result (IsEdited id.now (TakesIn child.now variable.now) levels.old levels.new) }
    ensures err { OnErr result (levels.new ≡ levels.old) }
{
    if !levels.has_child(&id.space, child) {
        return Err(AllocError);
    }
    levels.take_in(alloc, id, child, variable.copied(alloc)?)
}

/// A child goes on with the alternative of this number.
fn commit(
    alloc: Global,
    statements: &[Statement],
    levels: &mut Levels,
    id: &Ident,
    child: &SpaceName,
    index: u64,
) -> Result<bool, AllocError>
    ensures ok { IfOk result (IsEditedBy statements.now id.now (Commits child.now index) levels.old levels.new) }
    ensures err { OnErr result (levels.new ≡ levels.old) }
{
    if !levels.has_child(&id.space, child) {
        return Err(AllocError);
    }
    let Some(place) = levels.place(&id.space) else {
        return Err(AllocError);
    };
    levels.store_at(place).consistent();
    commit_in(alloc, statements, child, index, levels)?;
    let _statement = levels.pop(id);
    Ok(true)
}

/// The statement on top of a thread's stack is taken off, and the edit is made. False exactly where what its space is told with it is
/// inconsistent with what it sees: then nothing changes. It refuses for want of memory, and where the edit is of a space that is no child
/// of the thread's: then nothing changes either.
pub fn edit(
    alloc: Global,
    statements: &[Statement],
    levels: &mut Levels,
    id: &Ident,
    what: &Edit,
) -> Result<bool, AllocError>
    requires { is_some (layer_at levels.old id.now.space) ≡ true }
    ensures ok { IfOk result (IsEditedBy statements.now id.now (edit_of what.now) levels.old levels.new) }
    ensures err { OnErr result (levels.new ≡ levels.old) }
{
    match what {
        Edit::Creates {
            procedure,
            variable,
        } => levels.create_told(alloc, id, procedure.copied(alloc)?, variable.copied(alloc)?),
        Edit::Commits { space, index } => commit(alloc, statements, levels, id, space, *index),
        Edit::Copies { space, variable } => copy(alloc, levels, id, space, variable),
        Edit::Injects { space, procedure } => inject(alloc, levels, id, space, procedure),
        Edit::TakesIn { space, variable } => take_in(alloc, levels, id, space, variable),
    }
}
