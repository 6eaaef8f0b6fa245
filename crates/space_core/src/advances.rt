//! Tells of one space among the layers, with what it gives out.
ghost use Rattle.std.specs.Prelude.{◌≡◌, ◌<◌, length, IfOk, OnOk, OnErr};
ghost use Rattle.space_core.specs.Telling.{IsToldAt, HasThread, ToldUnder};
ghost use Rattle.space_core.specs.declared.given.Given.TheVariants.{Nothing};

use crate::edits::{self, give, set_back};
use crate::given::Given;
use crate::homes::all_home;
use crate::level::Level;
use crate::remaking::tell_through;
use oz_base::Sequence;
use oz_semantics::{Frame, Tell};
use std::alloc::{AllocError, Global};

/// Tells the space at a place, which gives out nothing, and all spaces below it.
fn tell_alone(
    alloc: Global,
    levels: &mut Vec<Level>,
    place: usize,
    tells: &[Tell],
) -> Result<bool, AllocError>
    requires { place < length levels.old.items }
    ensures told { IfOk result (IsToldAt place tells.now Nothing levels.old.items levels.new.items) }
    ensures err { OnErr result (levels.new.items ≡ levels.old.items) }
{
    let home = all_home(levels.as_slice(), &levels[place].space, tells);
    tell_through(alloc, levels, place, home, tells)
}

/// Tells the space at a place, which gives out what comes with that first, so that what is told of new variables leaves it traced.
#[inline(never)]
fn tell_giving(
    alloc: Global,
    levels: &mut Vec<Level>,
    place: usize,
    tells: &[Tell],
    given: &Given,
) -> Result<bool, AllocError>
    requires { place < length levels.old.items }
    ensures told { IfOk result (IsToldAt place tells.now given.now levels.old.items levels.new.items) }
    ensures err { OnErr result (levels.new.items ≡ levels.old.items) }
{
    let level = &levels[place];
    let before = level.numbers;
    let posted = level.constraints.propagators().len();
    let objects = give(alloc, &mut levels[place], given)?;
    let home = all_home(levels.as_slice(), &levels[place].space, tells);
    match tell_through(alloc, levels, place, home, tells) {
        Ok(true) => Ok(true),
        Ok(false) => {
            set_back(alloc, &mut levels[place], before, objects, posted);
            Ok(false)
        }
        Err(refused) => {
            set_back(alloc, &mut levels[place], before, objects, posted);
            Err(refused)
        }
    }
}

/// Tells the space at a place, which gives out what comes with that, and all spaces below it. False exactly where it is inconsistent
/// with what the space sees: then nothing changes.
pub fn tell_at(
    alloc: Global,
    levels: &mut Vec<Level>,
    place: usize,
    tells: &[Tell],
    given: &Given,
) -> Result<bool, AllocError>
    requires { place < length levels.old.items }
    ensures told { IfOk result (IsToldAt place tells.now given.now levels.old.items levels.new.items) }
    ensures err { OnErr result (levels.new.items ≡ levels.old.items) }
{
    match given {
        Given::Nothing => tell_alone(alloc, levels, place, tells),
        _ => tell_giving(alloc, levels, place, tells, given),
    }
}

/// Puts a handler on the stack of a thread of the space at a place, and tells the space. Where that is refused, or is inconsistent with
/// what the space sees, the handler is taken off again.
pub fn tell_under(
    alloc: Global,
    levels: &mut Vec<Level>,
    place: usize,
    number: u64,
    handler: Sequence<Frame>,
    tells: &[Tell],
    given: &Given,
) -> Result<(), AllocError>
    requires within { place < length levels.old.items }
    requires there { HasThread place number levels.old.items }
    ensures ok { OnOk result (ToldUnder place number handler tells.now given.now levels.old.items levels.new.items) }
    ensures err { OnErr result (levels.new.items ≡ levels.old.items) }
{
    let height = handler.len();
    edits::push(&mut levels[place], number, handler.into_vec())?;
    match tell_at(alloc, levels, place, tells, given) {
        Ok(true) => Ok(()),
        Ok(false) => {
            edits::cut(&mut levels[place], number, 0, height);
            Err(AllocError)
        }
        Err(refused) => {
            edits::cut(&mut levels[place], number, 0, height);
            Err(refused)
        }
    }
}
