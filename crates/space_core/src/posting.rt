//! Propagators of a space.
ghost use Rattle.std.specs.Prelude.{◌≡◌, not, OnOk, OnErr};
ghost use Rattle.std.specs.List.{list_any};
ghost use Rattle.oz_base.specs.Lists.{is_empty};
ghost use Rattle.cells_ports.specs.Objects.{Contents};
ghost use Rattle.space_core.specs.Giving.{objects_after, propagators_after};
ghost use Rattle.space_core.specs.Propagators.{has_propagators, noting_at};
ghost use Rattle.space_core.specs.Shown.{shown_all, IsQuiet};
ghost use Rattle.space_core.specs.declared.level.Level.{Level};

use crate::constraints::Constraints;
use crate::given::Given;
use crate::level::Level;
use oz_base::{Copies, Interval, Sequence, Shared};
use oz_semantics::{LastRun, Propagator};
use std::alloc::{AllocError, Global};

fn has_propagator(level: &Level) -> bool
    ensures { result ≡ not (is_empty level.now.constraints.propagators) }
{
    level.constraints.propagators().as_slice().first().is_some()
}

fn any_level(levels: &[Level]) -> bool
    ensures { result ≡ list_any (λ (l : Level). not (is_empty l.constraints.propagators)) levels.now }
{
    levels.iter().any(has_propagator)
}

/// Whether a space has propagators.
pub fn has_propagators(levels: &[Level]) -> bool
    ensures { result ≡ has_propagators (shown_all levels.now) }
{
    any_level(levels)
}

/// The propagators of a space after what comes with a tell. Where it is refused, the cells and ports do not change by that.
pub fn post(alloc: Global, constraints: &mut Constraints, given: &Given) -> Result<(), AllocError>
    ensures ok { OnOk result (constraints.new ≡ record constraints.old { propagators = propagators_after given.now constraints.old.propagators }) }
    ensures err { OnErr result (constraints.new ≡ constraints.old) }
    ensures objects { OnErr result ((objects : Contents) → objects_after given.now objects ≡ objects) }
{
    match given {
        Given::Nothing
        | Given::Variables(_)
        | Given::Procedure
        | Given::Name
        | Given::Cell(_)
        | Given::Content { .. }
        | Given::Port(_)
        | Given::End { .. } => Ok(()),
        Given::Propagator {
            relation,
            variables,
        } => constraints.add(Propagator {
            relation: relation.copied(alloc)?,
            variables: variables.copied(alloc)?,
            last: LastRun::Never,
        }),
    }
}

/// The propagator at an index saw these domains in its last run.
pub fn note_run(level: &mut Level, index: usize, seen: Shared<Sequence<Sequence<Interval>>>)
    ensures { IsQuiet (noting_at index seen) level.old level.new }
{
    level.constraints.note_run(index, seen);
}
