//! Laws of views and of the queue: how little of the layers decides what a machine asks of them.
//!
//! Each function does nothing: its contract states laws of the definitions.
#![tactic(auto)]

ghost use Rattle.view_laws.specs.Touched.{TouchedDecide, FirstsDecide, TouchedHold, UntouchedAlike, TouchesNothing, TouchesTwice};
ghost use Rattle.view_laws.specs.Sights.{ChangeUnseen, QuietUnseen, TellSeen, EndUnseen, FailureUnseen, RaiseUnseen, CreationUnseen, CommitmentUnseen, CommitmentSeen, CommittedConsistent, ViewSplits};
ghost use Rattle.view_laws.specs.Trees.{TreesLead, ChangeTree, EndTree, FailureTree, RaiseTree, CreationTree};
ghost use Rattle.view_laws.specs.Spaceless.{SpacelessAnswer, SpacelessReady, QuietSpaceless, TellSpaceless, UntoldSpaceless};
ghost use Rattle.view_laws.specs.Readies.{ReadinessStays, UntouchedUnmoved, ChangeReady, QuietReady};
ghost use Rattle.view_laws.specs.Queues.{QueueExact, QueueOnce, QueueTells, QuietQueue};
ghost use Rattle.view_laws.specs.Needs.{NothingFires};
ghost use Rattle.view_laws.specs.Steps.{ChangesMade, StackMade, StepNumbered, StepNew, RunnableOnce, MoverTold, QuietSound, QuietSettles, ChangesSettle, StackSettle};

/// What the touched variables decide: whether two views are alike, and whether a wait is for the ancestors. Nothing: it holds laws.
pub fn touched_law()
    ensures decide { TouchedDecide }
    ensures firsts { FirstsDecide }
    ensures waits { TouchedHold }
    ensures untouched { UntouchedAlike }
    ensures nothing { TouchesNothing }
    ensures twice { TouchesTwice }
{}

/// What changes of layers do to what spaces see. Nothing: it holds laws.
pub fn sight_law()
    ensures change { ChangeUnseen }
    ensures quiet { QuietUnseen }
    ensures tell { TellSeen }
    ensures end { EndUnseen }
    ensures failure { FailureUnseen }
    ensures raised { RaiseUnseen }
    ensures creation { CreationUnseen }
    ensures commitment { CommitmentUnseen }
    ensures committed { CommitmentSeen }
    ensures consistent { CommittedConsistent }
    ensures split { ViewSplits }
{}

/// What leaves the layers a tree of spaces. Nothing: it holds laws.
pub fn tree_law()
    ensures lead { TreesLead }
    ensures change { ChangeTree }
    ensures end { EndTree }
    ensures failure { FailureTree }
    ensures raised { RaiseTree }
    ensures creation { CreationTree }
{}

/// What a thread goes by where no space is a value. Nothing: it holds laws.
pub fn spaceless_law()
    ensures answer { SpacelessAnswer }
    ensures ready { SpacelessReady }
    ensures quiet { QuietSpaceless }
    ensures tell { TellSpaceless }
    ensures untold { UntoldSpaceless }
{}

/// What a thread can do where more is told than before, and where a layer changes. Nothing: it holds laws.
pub fn ready_law()
    ensures stays { ReadinessStays }
    ensures unmoved { UntouchedUnmoved }
    ensures change { ChangeReady }
    ensures quiet { QuietReady }
{}

/// What the queue tells of the layers. Nothing: it holds laws.
pub fn queue_law()
    ensures exact { QueueExact }
    ensures once { QueueOnce }
    ensures tells { QueueTells }
    ensures quiet { QuietQueue }
{}

/// What a step that tells nothing leaves of the layers, and what follows it. Nothing: it holds laws.
pub fn step_law()
    ensures changes { ChangesMade }
    ensures stack { StackMade }
    ensures numbered { StepNumbered }
    ensures new { StepNew }
    ensures once { RunnableOnce }
    ensures mover { MoverTold }
    ensures sound { QuietSound }
    ensures nothing_fires { NothingFires }
    ensures quiet { QuietSettles }
    ensures changes_settle { ChangesSettle }
    ensures stack_settle { StackSettle }
{}
