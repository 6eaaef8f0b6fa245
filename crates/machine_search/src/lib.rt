//! The machine's search is plain search through a tree of choices: what a traversal over configurations finds is what the
//! tree over paths holds.
//!
//! Each function does nothing: its contract is a law. `specs/Visits` defines the traversal.
#![tactic(auto)]

ghost use Rattle.machine_search.specs.Laws.{BoundLaw, MakerLaw, NodeLaw, NoNodeLaw, BelowLaw, BeginsLaw, VisitsLaw, StopsLaw, EndsLaw, TreeLaw, SpaceLaw, ScriptLaw};
ghost use Rattle.machine_search.specs.BestNodes.{BestMakerLaw, BestTreeLaw, UnboundedLaw, ChosenBelowLaw, BestNodesLaw, SearchSpaceLaw};
ghost use Rattle.machine_search.specs.Rests.{SettledLaw, OpeningLaw, RootLaw, ChosenLaw, RestLaw, StateLaw, NodesLaw};

/// The bound on the turns of a run does not matter where it is above the fuel, in steps.
pub fn bound_law()
    ensures { BoundLaw }
{}

/// A node of the machine has at least one step of its own, and is the same with any fuel that suffices for these.
pub fn maker_law()
    ensures { MakerLaw }
{}

/// The node of a run that ended (`made`), where the text of its leaf fits into the fuel that is left, and none where it
/// does not (`none`).
pub fn node_law()
    ensures made { NodeLaw }
    ensures none { NoNodeLaw }
{}

/// The traversal over configurations goes from a node to its children.
pub fn below_law()
    ensures { BelowLaw }
{}

/// A loop over open configurations finds what the traversal finds: as it begins with one (`begins`), visits the first
/// (`visits`), stops for want of fuel (`stops`), and ends with none (`ends`).
pub fn visits_law()
    ensures begins { BeginsLaw }
    ensures visits { VisitsLaw }
    ensures stops { StopsLaw }
    ensures ends { EndsLaw }
{}

/// What there is with each fuel belongs to one tree.
pub fn tree_law()
    ensures { TreeLaw }
{}

/// The depth-first traversal over configurations finds what that over paths does.
pub fn space_law()
    ensures { SpaceLaw }
{}

/// What is found of the script is what the traversal over configurations finds from the search root.
pub fn script_law()
    ensures { ScriptLaw }
{}

/// What makes runs end. After each step that leaves a consistent top all threads that can step are queued (`settled`),
/// so in the opening configuration (`opening`), after the search root is made (`root`), and after a space is committed
/// (`chosen`). A run from there ends where nothing of its space can step or is due (`rests`), so the space does not run
/// (`state`); nor does it in any node of the search (`nodes`).
pub fn rest_law()
    ensures settled { SettledLaw }
    ensures opening { OpeningLaw }
    ensures root { RootLaw }
    ensures chosen { ChosenLaw }
    ensures rests { RestLaw }
    ensures state { StateLaw }
    ensures nodes { NodesLaw }
{}

/// The nodes of best search. A node has at least one step of its own, and is the same with any fuel that suffices for these
/// (`maker`); what there is with each fuel belongs to one tree (`tree`); under no bound a space is committed as in plain search
/// (`unbounded`). A space but the top that is committed under a bound leaves all threads that can step queued, and a consistent
/// top (`chosen`), so nothing of the space can step in any node (`nodes`); the space in which the search begins is
/// not the top (`space`).
pub fn best_law()
    ensures maker { BestMakerLaw }
    ensures tree { BestTreeLaw }
    ensures unbounded { UnboundedLaw }
    ensures chosen { ChosenBelowLaw }
    ensures nodes { BestNodesLaw }
    ensures space { SearchSpaceLaw }
{}
