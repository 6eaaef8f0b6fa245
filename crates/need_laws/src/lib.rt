//! Laws of what follows a step by need: by-need computations that are needed begin, and all else stays.
//!
//! The function does nothing: its contract states laws of the definitions.
#![tactic(auto)]

ghost use Rattle.need_laws.specs.Needs.{NoneThere, NoneLeft, AllFired, FiredView, FiredTree, FiredThere, FiredNumbered, FiredSound, FiredStack, UnneededStays};

/// Which triggers give way to their threads, and what stays as it is (CTM 4.5). Nothing: it holds laws.
pub fn need_law()
    ensures there { NoneThere }
    ensures left { NoneLeft }
    ensures fired { AllFired }
    ensures seen { FiredView }
    ensures tree { FiredTree }
    ensures stays_there { FiredThere }
    ensures numbered { FiredNumbered }
    ensures sound { FiredSound }
    ensures stack { FiredStack }
    ensures unneeded { UnneededStays }
{}
