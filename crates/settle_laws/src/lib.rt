//! Laws of what follows a step of the machine.
//!
//! Each function does nothing: its contract states laws of the definitions.
#![tactic(auto)]

ghost use Rattle.settle_laws.specs.Settles.{NothingFails, QuietFails, QuietSettles, ChangesSettle, KeepsOwn, KeepsView, EndsSame, Settled, TellSettles, TellBelow, TopKept};
ghost use Rattle.settle_laws.specs.Edits.{EditsJoin, EditsAgree, TermSettles, CommittingParts, AreQuiet, QuietThere, QuietView, PopView};
ghost use Rattle.settle_laws.specs.Turns.{SettledExact, StepExact, TurnExact, FollowedExact, OpeningExact, RootExact, ChosenExact, CostLaw, TurnCost};
ghost use Rattle.settle_laws.specs.Clashes.{ClashFails, TellsAfter};
ghost use Rattle.settle_laws.specs.Content.{SettledContent, StepContent, TurnContent, FollowedContent, OpeningContent};
ghost use Rattle.settle_laws.specs.Sound.{SoundNothing, SoundTop, SoundSettles, QuietStaysSound, LeftTree, LeftSound, SettledSound, StepTree, StepSound, TurnTree, TurnSound, CreatedSound, CommittedSound, CommittedSettles, FollowedLeft, FollowedSettles, OpeningSound, OpeningTree, OpeningLeft};

/// What edits of one layer come to. Nothing: it holds laws.
pub fn edit_law()
    ensures join { EditsJoin }
    ensures agree { EditsAgree }
    ensures term { TermSettles }
    ensures committing { CommittingParts }
    ensures quiet { AreQuiet }
    ensures there { QuietThere }
    ensures seen { QuietView }
    ensures pop { PopView }
{}

/// What is left where spaces that see what is inconsistent fail. Nothing: it holds laws.
pub fn settle_law()
    ensures nothing { NothingFails }
    ensures fails { QuietFails }
    ensures quiet { QuietSettles }
    ensures changes { ChangesSettle }
    ensures own { KeepsOwn }
    ensures seen { KeepsView }
    ensures end { EndsSame }
    ensures settled { Settled }
    ensures tell { TellSettles }
    ensures below { TellBelow }
    ensures top { TopKept }
{}

/// Where a space is told what clashes with what it sees (`fails`), and where it is told more after spaces below it have failed
/// (`after`). Nothing: it holds laws.
pub fn clash_law()
    ensures fails { ClashFails }
    ensures after { TellsAfter }
{}

/// What each turn leaves, and costs. Nothing: it holds laws.
pub fn turn_law()
    ensures settled { SettledExact }
    ensures step { StepExact }
    ensures turn { TurnExact }
    ensures followed { FollowedExact }
    ensures root { RootExact }
    ensures chosen { ChosenExact }
    ensures cost { CostLaw }
    ensures turn_cost { TurnCost }
{}

/// No turn leaves a trigger that is needed. Nothing: it holds laws.
pub fn content_law()
    ensures settled { SettledContent }
    ensures step { StepContent }
    ensures turn { TurnContent }
    ensures followed { FollowedContent }
    ensures opening { OpeningContent }
{}

/// Where no space sees what is inconsistent. Nothing: it holds laws.
pub fn sound_law()
    ensures nothing { SoundNothing }
    ensures top { SoundTop }
    ensures settles { SoundSettles }
    ensures quiet { QuietStaysSound }
    ensures tree { LeftTree }
    ensures left { LeftSound }
    ensures settled { SettledSound }
    ensures step_tree { StepTree }
    ensures step { StepSound }
    ensures turn_tree { TurnTree }
    ensures turn { TurnSound }
    ensures created { CreatedSound }
    ensures committed { CommittedSound }
    ensures committed_settles { CommittedSettles }
    ensures followed { FollowedLeft }
    ensures followed_settles { FollowedSettles }
{}

/// What a program opens with. Nothing: it holds laws.
pub fn opening_law()
    ensures sound { OpeningSound }
    ensures tree { OpeningTree }
    ensures left { OpeningLeft }
    ensures exact { OpeningExact }
{}
