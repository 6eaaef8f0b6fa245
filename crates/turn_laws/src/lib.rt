//! Laws of what is so of a configuration from turn to turn.
//!
//! Each function does nothing: its contract states laws of the definitions.
#![tactic(auto)]

ghost use Rattle.turn_laws.specs.Orderly.{EditsNumbered, ChangesOrderly, DoneOrderly, StackOrderly, CreatedOrderly, CommittedOrderly, FiredOrderly, MoverAlone};
ghost use Rattle.turn_laws.specs.Kept.{KeptLayers, KeptShown, KeptTurn, KeptStep, KeptRun, KeptOpening, KeptRoot, KeptChosen, KeptGoesOn, KeptHead, KeptChanges, KeptStack};
ghost use Rattle.turn_laws.specs.Telling.{TellQueue};

/// Which edits leave the layers orderly, and what a thread's own layer then tells. Nothing: it holds laws.
pub fn orderly_law()
    ensures numbered { EditsNumbered }
    ensures changes { ChangesOrderly }
    ensures done { DoneOrderly }
    ensures stack { StackOrderly }
    ensures created { CreatedOrderly }
    ensures committed { CommittedOrderly }
    ensures fired { FiredOrderly }
    ensures mover { MoverAlone }
{}

/// What is so of a configuration from turn to turn. Nothing: it holds laws.
pub fn kept_law()
    ensures layers { KeptLayers }
    ensures shown { KeptShown }
    ensures turn { KeptTurn }
    ensures step { KeptStep }
    ensures run { KeptRun }
    ensures opening { KeptOpening }
    ensures root { KeptRoot }
    ensures chosen { KeptChosen }
{}

/// What the queue then tells, and what a step that tells nothing makes of it. Nothing: it holds laws.
pub fn head_law()
    ensures goes_on { KeptGoesOn }
    ensures head { KeptHead }
    ensures changes { KeptChanges }
    ensures stack { KeptStack }
{}

/// What a step that tells something makes of the queue. Nothing: it holds laws.
pub fn telling_law()
    ensures queue { TellQueue }
{}
