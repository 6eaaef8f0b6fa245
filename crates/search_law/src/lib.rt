//! Laws over the histories of pools, and over the trees that they explore, for each kind of search.
//!
//! Each function does nothing: its contract is a law. `B` are the branches of the search, `L` its reports of leaves,
//! and `C` the configurations of the machine that makes its nodes.
#![tactic(auto)]

ghost use Rattle.search_law.specs.Law.{FinishedLaw, SpentLaw, TakenLaw, PlainLaw, BoundLaw, LastLaw, StaysLaw, ClaimLaw, OnceLaw, OpenLaw, LeavesLaw, PlacesLaw, PlainSearch, BestSearch};
ghost use Rattle.search_law.specs.BestLaw.{BestLaw};
ghost use Rattle.search_law.specs.OneWorker.{OneWorkerLaw, FinishesLaw};
ghost use Rattle.search_law.specs.Example.{FoundLaw, BoundsLaw, OpenAlternatives};
ghost use Rattle.search_law.specs.NodeLaw.{FuelLaw, TreeLaw, UniqueLaw, ClaimedLaw, ThereLaw, StopLaw, ParentLaw, PrefixLaw, RefusedLaw, ConfigLaw};

/// A finished history has the leaves and the total of the depth-first traversal by the branches that it follows.
pub fn finished_law<B, L>()
    ensures { FinishedLaw B L }
{}

/// Where a worker stopped for want of steps, the traversal gives none.
pub fn spent_law<B, L>()
    ensures { SpentLaw B L }
{}

/// Each history that replays follows the branches that it has taken.
pub fn taken_law<B, L>()
    ensures { TakenLaw B L }
{}

/// In plain search the traversal is the same for all histories.
pub fn plain_law<L>()
    ensures { PlainLaw L }
{}

/// The bound of the traversal does not matter, where it is not below the fuel.
pub fn bound_law<B, L>()
    ensures { BoundLaw B L }
{}

/// After nothing is open and nothing out, there comes at most a stop for want of memory.
pub fn last_law<B, L>()
    ensures { LastLaw B L }
{}

/// What is finished stays finished.
pub fn stays_law<B, L>()
    ensures { StaysLaw B L }
{}

/// What is out to a worker is its claim.
pub fn claims_law<B, L>()
    ensures { ClaimLaw B L }
{}

/// No alternative of a node is claimed twice.
pub fn once_law<B, L>()
    ensures { OnceLaw B L }
{}

/// Open paths to different alternatives are in one order by their alternatives and by their branches.
pub fn open_law<B, L>()
    ensures { OpenLaw B L }
{}

/// The leaves of a history that replays are its unfailed leaves, each once, in path order.
pub fn leaves_law<B, L>()
    ensures { LeavesLaw B L }
{}

/// The places in the history that are noted as the leaves come are those of the leaves, in their order.
pub fn places_law<B, L>()
    ensures { PlacesLaw B L }
{}

/// Plain search is a kind of search.
pub fn plain_search<L>()
    ensures { PlainSearch L }
{}

/// Best search is a kind of search.
pub fn best_search()
    ensures { BestSearch }
{}

/// A node is the same with any fuel that suffices for it (`more`), and what a machine makes with each fuel are parts of one tree
/// (`tree`).
pub fn fuel_law<B, L, C>()
    ensures more { FuelLaw B L C }
    ensures tree { TreeLaw B L C }
{}

/// What the budget has to do with a node. A path has at most one node (`unique`). After a legal history, a claimed node that is
/// not there within the budget has more own steps than the budget (`claimed`), and one that has no more is there (`there`). Where
/// a worker stops for want of fuel, the node that it has claimed has more (`stop`).
pub fn budget_law<B, L>()
    ensures unique { UniqueLaw B L }
    ensures claimed { ClaimedLaw B L }
    ensures there { ThereLaw B L }
    ensures stop { StopLaw B L }
{}

/// Recomputation. A node is its parent's configuration, committed and run (`parent`); the rest of a path is found from any node on
/// the way (`prefix`); and a path that goes on from a refused one is refused in the same way (`refused`).
pub fn path_law<B, L, C>()
    ensures parent { ParentLaw B L C }
    ensures prefix { PrefixLaw B L C }
    ensures refused { RefusedLaw B L C }
{}

/// A loop over open configurations finds the leaves of the tree over the paths.
pub fn config_law<B, L, C>()
    ensures { ConfigLaw B L C }
{}

/// A finished history of best search has found the least cost of all solutions `A`.
pub fn best_law<A>()
    ensures { BestLaw A }
{}

/// Of two legal histories of one worker alone, one goes on where the other ends.
pub fn one_worker_law()
    ensures { OneWorkerLaw }
{}

/// Where one worker alone has finished, no history of its own ends with a stop for want of steps.
pub fn finishes_law()
    ensures { FinishesLaw }
{}

/// The traversal of a small tree, with enough fuel and with too little.
pub fn found_law()
    ensures { FoundLaw }
{}

/// The bounds, the open alternatives and the leaves of a small history of best search.
pub fn small_history()
    ensures bounds { BoundsLaw }
    ensures alternatives { OpenAlternatives }
{}
