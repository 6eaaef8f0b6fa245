//! Best search over finite domains: the nodes of a search that show the bounded tree of a problem find its optimum.
//!
//! Each function does nothing: its contract is a law. `specs/Parts` says which assignments lie below a node, `specs/Laws` what a
//! finished history has found.
#![tactic(auto)]

ghost use Rattle.fd_best.specs.Laws.{SolvesLaw, OptimumLaw};

/// Nodes that show the bounded tree of a problem agree with its assignments, which is what best search rests on.
pub fn solves_law()
    ensures { SolvesLaw }
{}

/// A finished history of best search over such nodes has found an optimum of the problem, or that no assignment meets it.
pub fn optimum_law()
    ensures { OptimumLaw }
{}
