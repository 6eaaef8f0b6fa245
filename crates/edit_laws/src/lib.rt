//! Laws of the edits of the tree of spaces: they leave a tree of spaces, and what is there and seen after them.
//!
//! Each function does nothing: its contract states laws of the definitions.
#![tactic(auto)]

ghost use Rattle.edit_laws.specs.Edits.{InjectedTree, InjectedNumbered, InjectedTop, CopiedTree, CopiedNumbered, CopiedTop, TakenTree, TakenNumbered, TakenTop};
ghost use Rattle.edit_laws.specs.Layers.{CopiedLayer, CopiedOther, TakenLayer, TakenGone, TakenChild, TakenParent, TakenOther};
ghost use Rattle.edit_laws.specs.Sights.{ViewParts, FromParts, TellLast, InjectionUnseen, CopyUnseen, CopySeen, CopyRenamed, CloneUnseen, CloneBeside, CloneSeen, CloneBelow, TakenUnseen, TakenAway, TakenSeen, MergeUnseen, MergeBeside, MergeSeen, MergeBelow, MergeRenamed};
ghost use Rattle.edit_laws.specs.Outside.{CopyNamed, MergeNamed};

/// What is left where a procedure is applied in a space. Nothing: it holds laws.
pub fn injection_law()
    ensures tree { InjectedTree }
    ensures numbered { InjectedNumbered }
    ensures top { InjectedTop }
{}

/// What is left where a space is copied. Nothing: it holds laws.
pub fn copy_law()
    ensures tree { CopiedTree }
    ensures numbered { CopiedNumbered }
    ensures top { CopiedTop }
{}

/// What is left where a space becomes a part of its parent. Nothing: it holds laws.
pub fn merge_law()
    ensures tree { TakenTree }
    ensures numbered { TakenNumbered }
    ensures top { TakenTop }
{}

/// Which layers are there after a space was copied, or became a part of its parent. Nothing: it holds laws.
pub fn edit_layer_law()
    ensures copied { CopiedLayer }
    ensures copied_other { CopiedOther }
    ensures taken { TakenLayer }
    ensures gone { TakenGone }
    ensures child { TakenChild }
    ensures parent { TakenParent }
    ensures taken_other { TakenOther }
{}

/// What spaces see after a procedure was applied in a space, or a space was copied, or became a part of its parent. Nothing: it holds laws.
pub fn edit_sight_law()
    ensures parts { ViewParts }
    ensures from { FromParts }
    ensures last { TellLast }
    ensures injection { InjectionUnseen }
    ensures copy_unseen { CopyUnseen }
    ensures copy_seen { CopySeen }
    ensures copy_renamed { CopyRenamed }
    ensures copy_named { CopyNamed }
    ensures clone_unseen { CloneUnseen }
    ensures clone_beside { CloneBeside }
    ensures clone_seen { CloneSeen }
    ensures clone_below { CloneBelow }
    ensures taken_unseen { TakenUnseen }
    ensures taken_away { TakenAway }
    ensures taken_seen { TakenSeen }
    ensures merge_unseen { MergeUnseen }
    ensures merge_beside { MergeBeside }
    ensures merge_seen { MergeSeen }
    ensures merge_below { MergeBelow }
    ensures merge_renamed { MergeRenamed }
    ensures merge_named { MergeNamed }
{}
