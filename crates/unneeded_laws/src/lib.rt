//! Laws of what a step leaves unneeded: no by-need computation is needed that was not, unless a thread comes to wait or something is told.
//!
//! Each function does nothing: its contract states laws of the definitions.
#![tactic(auto)]

ghost use Rattle.unneeded_laws.specs.Unneeded.{AbleWaitsNot, ChangesNeedNone, StackNeedsNone, AddedNeedNone, ChangesNeedMet, StackNeedsMet, ChangesNeedOwn, StackNeedsOwn, TellNeedsBelow, TellNeedsNone, RunNeedsBelow};

/// Which triggers are asked after a step that tells nothing, if any. Nothing: it holds laws.
pub fn quiet_law()
    ensures able { AbleWaitsNot }
    ensures changes { ChangesNeedNone }
    ensures stack { StackNeedsNone }
    ensures added { AddedNeedNone }
    ensures met { ChangesNeedMet }
    ensures met_stack { StackNeedsMet }
    ensures own { ChangesNeedOwn }
    ensures own_stack { StackNeedsOwn }
{}

/// Which triggers are asked after a step that tells something. Nothing: it holds laws.
pub fn told_law()
    ensures below { TellNeedsBelow }
    ensures alone { TellNeedsNone }
    ensures run { RunNeedsBelow }
{}
