//! What is kept of the spaces where one of them is copied.
ghost use Rattle.std.specs.Prelude.{◌≡◌, ◌<◌, length, IfOk, OnOk};
ghost use Rattle.oz_semantics.specs.Configurations.{next_child};
ghost use Rattle.space_core.specs.Anew.{counting_by, IsToldAlone};
ghost use Rattle.space_core.specs.Shown.{shown, IsQuiet};

use crate::edits::drop_top;
use crate::homes::all_home;
use crate::level::Level;
use crate::telling::tell;
use crate::tree::child_count;
use oz_base::SpaceName;
use oz_semantics::Tell;
use std::alloc::{AllocError, Global};

/// The name of the child that a space gives out next.
pub fn next_name(alloc: Global, level: &Level) -> Result<SpaceName, AllocError>
    ensures { IfOk result (λ name. name ≡ next_child (shown level.now)) }
{
    let name = level.space.child(alloc, level.numbers.child)?;
    Ok(name)
}

/// The statement on top of a thread's stack is taken off, and one more child is counted.
fn count_by(level: &mut Level, number: u64) -> Result<(), AllocError>
    ensures { OnOk result (IsQuiet (counting_by number) level.old level.new) }
{
    let count = child_count(level)?;
    drop_top(level, number);
    level.numbers.child = count;
    Ok(())
}

/// The statement on top of a thread's stack is taken off, one more child is counted, and the space at the place is told this. The spaces
/// below it still see what they saw. False exactly where it is inconsistent with what the space sees.
pub fn count_told(
    alloc: Global,
    levels: &mut Vec<Level>,
    place: usize,
    number: u64,
    tells: &[Tell],
) -> Result<bool, AllocError>
    requires { place < length levels.old.items }
    ensures { IfOk result (IsToldAlone (counting_by number) place tells.now levels.old.items levels.new.items) }
{
    count_by(&mut levels[place], number)?;
    let home = all_home(levels.as_slice(), &levels[place].space, tells);
    let told = tell(alloc, &mut levels[place], home, tells)?;
    Ok(told)
}
