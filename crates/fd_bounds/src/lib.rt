//! Laws of branch and bound over finite domains: a search for the least cost, in which a node may be told a cost that was found.
//!
//! Each function does nothing: its contract is a law. `specs/Bounds` has the definitions and the laws.
#![tactic(auto)]

ghost use Rattle.fd_bounds.specs.BoundedTrees.{BoundedTreeLaw};
ghost use Rattle.fd_bounds.specs.Bounds.{BestLaw, BoundedLaw, BestAnswerLaw, UnboundedLaw};

/// A search in which each node is told a cost that a leaf has. The least cost of a leaf is the least of all solutions (`best`), and
/// where all variables follow, each leaf is a solution (`leaves`). So it is for the tuples that meet a problem (`answer`). Where no node
/// is told a bound, there is such a tree (`unbounded`).
pub fn bound_law()
    ensures best { BestLaw }
    ensures leaves { BoundedLaw }
    ensures answer { BestAnswerLaw }
    ensures unbounded { UnboundedLaw }
{}

/// There is a tree below each store of a search, with all bounds under which its nodes may be begun.
pub fn bounded_tree_law()
    ensures { BoundedTreeLaw }
{}
