//! Laws of the queue after a step that tells nothing, or tells a space with none below it, also where spaces are values.
//!
//! Each function does nothing: its contract states laws of the definitions.
#![tactic(auto)]

ghost use Rattle.quiet_laws.specs.Unknown.{NoneGiven, NoneBelow};
ghost use Rattle.quiet_laws.specs.Among.{ChangesAmong, StackAmong, TellAmong, AboveTop};
ghost use Rattle.quiet_laws.specs.Awake.{ChangesAwake, StackAwake, TellAwake};

/// Where the new variables of a step are unknown below its space. Nothing: it holds laws.
pub fn unknown_law()
    ensures given { NoneGiven }
    ensures below { NoneBelow }
{}

/// Which threads a step wakes that tells nothing, or tells a space with none below it. Nothing: it holds laws.
pub fn among_law()
    ensures changes { ChangesAmong }
    ensures stack { StackAmong }
    ensures tell { TellAmong }
    ensures top { AboveTop }
{}

/// Where the thread that stepped can step still, it wakes none of other spaces. Nothing: it holds laws.
pub fn awake_law()
    ensures changes { ChangesAwake }
    ensures stack { StackAwake }
    ensures tell { TellAwake }
{}
