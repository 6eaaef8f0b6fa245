//! What is known of an act before it is made: whether it tells anything, and whom that may wake.
ghost use Rattle.std.specs.Prelude.{◌≡◌, ◌&&◌, not, true, false, IfOk};
ghost use Rattle.builtins.specs.Answers.{act_of};
ghost use Rattle.space_core.specs.Telling.{has_below};
ghost use Rattle.oz_acts.specs.Doings.{is_quiet};
ghost use Rattle.oz_machine.specs.Quiet.{delays, gives_out};
ghost use Rattle.oz_sleep.specs.Laid.{Foretells};

use builtins::Act;
use oz_acts::is_quiet;
use oz_base::{Ident, Sequence};
use oz_sleep::{Sleeping, woken};
use space_core::Levels;
use std::alloc::{AllocError, Global};

/// Whether an act tells nothing, where this spares a look at the other threads.
pub fn is_known_quiet(what: &Act, kept: bool) -> bool
    ensures { result ≡ (kept && is_quiet (act_of what.now)) }
{
    kept && is_quiet(what)
}

/// Whether an act adds a by-need computation.
fn delays(what: &Act) -> bool
    ensures { result ≡ delays (act_of what.now) }
{
    match what {
        Act::Delays { .. } => true,
        _ => false,
    }
}

/// Whether an act that tells nothing gives out variables.
pub fn gives_out(what: &Act) -> bool
    ensures { result ≡ gives_out (act_of what.now) }
{
    match what {
        Act::Declares(_) => true,
        _ => false,
    }
}

/// Whether an act of which it is known that it tells nothing adds no by-need computation either.
pub fn is_known_still(what: &Act, quiet: bool) -> bool
    ensures { result ≡ (quiet && not (delays (act_of what.now))) }
{
    quiet && !delays(what)
}

/// Whether no space is below the thread's, where this spares a look at the threads of other spaces: after a step that told something.
pub fn is_known_lowest(levels: &Levels, id: &Ident, kept: bool, quiet: bool) -> bool
    ensures { result ≡ ((kept && not quiet) && not (has_below levels.now id.now.space)) }
{
    kept && !quiet && !levels.has_below(&id.space)
}

/// Who may wake by an act that tells a space with none below it, where no space is a value and each by-need computation has begun. None
/// where that is not known.
pub fn foreseen(
    alloc: Global,
    levels: &Levels,
    id: &Ident,
    what: &Act,
    lowest: bool,
    sleeping: &mut Sleeping,
) -> Result<Option<Sequence<u64>>, AllocError>
    ensures known { sleeping.new.known ≡ sleeping.old.known }
    ensures quiet { lowest ≡ false → sleeping.new ≡ sleeping.old }
    ensures foretold { lowest ≡ true → IfOk result (Foretells levels.now id.now (act_of what.now) sleeping.old sleeping.new) }
{
    if !lowest {
        return Ok(None);
    }
    if !levels.is_plain() {
        sleeping.drop_pending();
        return Ok(None);
    }
    woken(alloc, levels, id, what, sleeping)
}
