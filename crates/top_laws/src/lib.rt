//! Laws of the top while a search runs: it does nothing and raises nothing.
//!
//! The function does nothing: its contract states laws of the definitions.
#![tactic(auto)]

ghost use Rattle.top_laws.specs.Top.{RestsLaw, RootRests, ChosenRests, TurnRests, TurnRaisesNothing, RunRests, RunRaisesNothing};

/// A search runs below a top that rests (CTM 12.4): its threads wait for what no space below tells them. So no node of a search ends
/// with an exception of the top. Nothing: it holds laws.
pub fn top_law()
    ensures rests { RestsLaw }
    ensures root { RootRests }
    ensures chosen { ChosenRests }
    ensures turn { TurnRests }
    ensures turn_raises { TurnRaisesNothing }
    ensures run { RunRests }
    ensures run_raises { RunRaisesNothing }
{}
