//! Laws of threads that wait for variables: how long they sleep, and what the queue is once some of them woke.
//!
//! Each function does nothing: its contract states laws of the definitions.
#![tactic(auto)]

ghost use Rattle.sleep_laws.specs.Asleep.{AsleepRests, StaysAsleep, ToldLeft, QuietLeft, StackLeft};
ghost use Rattle.sleep_laws.specs.Touching.{ValueTouches, EquationTouches};
ghost use Rattle.sleep_laws.specs.Woken.{WokenOthers, ToldRequeues, TellWakes, TellWakesAwake};

/// Threads that sleep can't step, and which steps leave them asleep. Nothing: it holds laws.
pub fn asleep_law()
    ensures rests { AsleepRests }
    ensures stays { StaysAsleep }
    ensures told { ToldLeft }
    ensures quiet { QuietLeft }
    ensures stack { StackLeft }
{}

/// What a step that tells something makes of the queue, where it is known whom it may wake. Nothing: it holds laws.
pub fn woken_law()
    ensures others { WokenOthers }
    ensures requeues { ToldRequeues }
    ensures tell { TellWakes }
    ensures awake { TellWakesAwake }
{}

/// What a single tell touches. Nothing: it holds laws.
pub fn touching_law()
    ensures value { ValueTouches }
    ensures equation { EquationTouches }
{}
