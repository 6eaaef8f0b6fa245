//! Laws of what a turn of a space leaves as it is: all that is not below the space, and, but for a merge, what is below it adds nothing to
//! its own tells, propagators, cells and ports.
//!
//! Each function does nothing: its contract states laws of the definitions.
#![tactic(auto)]

ghost use Rattle.inside_laws.specs.Settled.{KeptSettled, LeftAsTheyAre};
ghost use Rattle.inside_laws.specs.Outside.{StepsStayInside, LayersStay, RunsStayInside, RunLayersStay};
ghost use Rattle.inside_laws.specs.Contents.{OnlyMergeAdds, RunAddsItsOwn};

/// Which configurations what follows a step leaves as they are. Nothing: it holds laws.
pub fn settled_law()
    ensures kept { KeptSettled }
    ensures left { LeftAsTheyAre }
{}

/// A turn of a space stays inside it. Nothing: it holds laws.
pub fn inside_law()
    ensures steps { StepsStayInside }
    ensures layers { LayersStay }
    ensures runs { RunsStayInside }
    ensures run_layers { RunLayersStay }
{}

/// Only a merge adds to a space what is below it. Nothing: it holds laws.
pub fn contents_law()
    ensures merge { OnlyMergeAdds }
    ensures run { RunAddsItsOwn }
{}
