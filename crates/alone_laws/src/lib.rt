//! Laws of a space alone: it steps as it does among others.
//!
//! Each function does nothing: its contract states laws of the definitions.
#![tactic(auto)]

ghost use Rattle.alone_laws.specs.Alone.{StepsAlone, RestsAlone, PropagatesAlone, RestsAtRuns};
ghost use Rattle.alone_laws.specs.AloneRuns.{RunsAlone, RunsSame};

/// A space alone makes the turns that it makes among others, and rests at turns that do not concern it. Nothing: it holds laws.
pub fn alone_law()
    ensures steps { StepsAlone }
    ensures rests { RestsAlone }
    ensures propagates { PropagatesAlone }
    ensures rests_at_runs { RestsAtRuns }
{}

/// So it is of many turns, and of a run. Nothing: it holds laws.
pub fn runs_law()
    ensures turns { RunsAlone }
    ensures run { RunsSame }
{}
