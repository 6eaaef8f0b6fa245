//! Edits of the tree of spaces by a search.
ghost use Rattle.std.specs.Prelude.{ℕ, ◌≡◌, ◌∷◌, [], List, true, is_some, IfOk, OnOk, OnErr};
ghost use Rattle.oz_language.specs.declared.kernel.Statement.{Statement};
ghost use Rattle.oz_semantics.specs.Configurations.{in_layer, layer_at, telling};
ghost use Rattle.oz_semantics.specs.Edits.{committed};
ghost use Rattle.settle_laws.specs.Settles.{Settles};
ghost use Rattle.oz_semantics.specs.Search.{followed, with_root, search_space, chosen_in};
ghost use Rattle.oz_semantics.specs.declared.configuration.Layer.{Layer};
ghost use Rattle.oz_machine.specs.Courses.{config_of};
ghost use Rattle.oz_machine.specs.Asleep.{Sleeps};
ghost use Rattle.oz_sleep.specs.declared.sleeping.Sleeping.{Sleeping};

use crate::course::{Course, Due};
use crate::settling::settle_only;
use oz_base::{Ident, SpaceName};
use oz_language::Statement;
use oz_semantics::Tell;
use oz_sleep::Sleeping;
use space_core::Levels;
use stability::{Choice, chosen};
use std::alloc::{AllocError, Global};

/// What follows an edit: everybody is due.
pub fn follow_edit(course: &mut Course)
    ensures asleep { (statements : List Statement) (s : Sleeping) → Sleeps statements s course.new }
    ensures follows { (statements : List Statement) (space : List ℕ) (before made : List Layer) → Settles space made course.old.levels
        → config_of statements course.new ≡ followed statements (record { layers = before; queue = course.old.queue; shown = course.old.shown }) made }
{
    course.due = Due::Everybody { mover: None };
}

/// Makes the search root, a child of the top that applies the procedure to its root variable, and gives its name.
pub fn root(
    alloc: Global,
    statements: &[Statement],
    procedure: Ident,
    course: &mut Course,
    sleeping: &mut Sleeping,
) -> Result<SpaceName, AllocError>
    requires asleep { Sleeps statements.now sleeping.old course.old }
    ensures root { OnOk result (config_of statements.now course.new ≡ with_root statements.now procedure (config_of statements.now course.old)) }
    ensures name { IfOk result (λ space. space ≡ search_space (config_of statements.now course.old)) }
    ensures err { OnErr result (config_of statements.now course.new ≡ config_of statements.now course.old) }
    ensures asleep { Sleeps statements.now sleeping.new course.new }
{
    settle_only(alloc, statements, course, sleeping)?;
    let top = SpaceName::top();
    if course.levels.place(&top).is_none() {
        return Err(AllocError);
    }
    let space = course.levels.create(alloc, &top, procedure)?;
    course.levels.consistent();
    follow_edit(course);
    Ok(space)
}

/// A space that offers the parts of a domain is told one of them. It refuses where that clashes with what the space sees, which no part
/// does.
fn tell_part(
    alloc: Global,
    space: &SpaceName,
    tell: Tell,
    levels: &mut Levels,
) -> Result<(), AllocError>
    requires { is_some (layer_at levels.old space.now) ≡ true }
    ensures ok { OnOk result (Settles space.now (in_layer space.now (telling (tell ∷ [])) levels.old) levels.new) }
    ensures err { OnErr result (levels.new ≡ levels.old) }
{
    let tells = Vec::from_array(alloc, [tell])?;
    if levels.tell(alloc, space, &tells)? {
        Ok(())
    } else {
        Err(AllocError)
    }
}

/// The layers, where a space that offers alternatives is committed to one of them, from 1.
pub fn commit_in(
    alloc: Global,
    statements: &[Statement],
    space: &SpaceName,
    index: u64,
    levels: &mut Levels,
) -> Result<(), AllocError>
    ensures ok { OnOk result (Settles space.now (committed statements.now space.now index levels.old) levels.new) }
    ensures err { OnErr result (levels.new ≡ levels.old) }
{
    let choice = chosen(alloc, statements, levels, space, index)?;
    match choice {
        Choice::Nothing => {
            levels.consistent();
            Ok(())
        }
        Choice::GoesOn { thread, frames } => {
            levels.replace_top(&thread, frames)?;
            levels.consistent();
            Ok(())
        }
        Choice::Tells { tell } => tell_part(alloc, space, tell, levels),
    }
}

/// Commits a space that offers alternatives to one of them, from 1.
pub fn commit(
    alloc: Global,
    statements: &[Statement],
    space: &SpaceName,
    index: u64,
    course: &mut Course,
    sleeping: &mut Sleeping,
) -> Result<(), AllocError>
    requires asleep { Sleeps statements.now sleeping.old course.old }
    ensures commit { OnOk result (config_of statements.now course.new ≡ chosen_in statements.now space.now index (config_of statements.now course.old)) }
    ensures err { OnErr result (config_of statements.now course.new ≡ config_of statements.now course.old) }
    ensures asleep { Sleeps statements.now sleeping.new course.new }
{
    settle_only(alloc, statements, course, sleeping)?;
    commit_in(alloc, statements, space, index, &mut course.levels)?;
    follow_edit(course);
    Ok(())
}
