//! Laws of searches whose nodes show the tree of a search over finite domains: what a traversal finds of them.
//!
//! Each function does nothing: its contract is a law. `B` are the branches of a search, and `L` its reports of leaves.
#![tactic(auto)]

ghost use Rattle.fd_nodes.specs.Reports.{ReportsLaw};
ghost use Rattle.fd_nodes.specs.Nodes.{NodesLaw, FoundLaw};

/// The depth-first traversal of a tree of reports finds what is shown of its leaves, in all steps, for each kind of search.
pub fn report_law<B, L>()
    ensures { ReportsLaw B L }
{}

/// The depth-first traversal of a machine's nodes finds what is shown of their leaves, in all steps (`nodes`), and so does the search
/// of a script (`found`).
pub fn node_law()
    ensures nodes { NodesLaw }
    ensures found { FoundLaw }
{}
