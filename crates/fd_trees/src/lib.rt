//! Laws of the trees of a search over finite domains, whose leaves are the assignments of a problem.
//!
//! Each function does nothing: its contract is a law. `specs/Trees` has the definitions, and `specs/Scripts` those of a problem's
//! constraints.
#![tactic(auto)]

ghost use Rattle.fd_trees.specs.Laws.{LeavesLaw, SolvedLaw, AnswersLaw, EndsLaw, TreeLaw, OrderLaw};
ghost use Rattle.fd_trees.specs.Scripts.{ScriptLaw, SearchLaw};

/// The leaves of a tree. Each solution is one of exactly one leaf, and for `naive` they stand in lexicographic order (`leaves`). A leaf
/// with no undecided propagator is a solution (`solved`). Where all variables follow from those that are distributed, the leaves are
/// the assignments (`answers`).
pub fn tree_law()
    ensures leaves { LeavesLaw }
    ensures solved { SolvedLaw }
    ensures answers { AnswersLaw }
{}

/// There is a tree (`tree`). It has no more levels than its store has values, and one (`levels`).
pub fn end_law()
    ensures tree { TreeLaw }
    ensures levels { EndsLaw }
{}

/// The leaves of a finite-domain problem's tree are solved, and their answers are its assignments, each once, for `naive` in
/// lexicographic order (`leaves`); and there is such a tree (`found`).
pub fn script_law()
    ensures leaves { ScriptLaw }
    ensures found { SearchLaw }
{}

/// A list of tuples in lexicographic order is determined by its members.
pub fn order_law()
    ensures { OrderLaw }
{}
