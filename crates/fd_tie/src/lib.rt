//! The search of a finite-domain script is the search of its problem.
//!
//! Each function does nothing: its contract is a law. `fd_form_law` has the laws.
#![tactic(auto)]

ghost use Rattle.fd_form_law.specs.Laws.{Tie};
ghost use Rattle.fd_form_law.specs.FdCompleteness.{FdCompleteness, FdReply};
ghost use Rattle.fd_form_law.specs.FdOptimality.{BestTie, FdOptimality};

/// Whenever the top of a script has come to rest, the nodes below its search root show a tree of its problem. Nothing: it holds a law.
pub fn script_law()
    ensures { Tie }
{}

/// The leaves of a script are the assignments that meet its problem, each once. Nothing: it holds a law.
pub fn complete_law()
    ensures { FdCompleteness }
{}

/// What is written of a script is the lines of its answers. Nothing: it holds a law.
pub fn reply_law()
    ensures { FdReply }
{}

/// Whenever the top of a script with a cost has come to rest, the nodes of its best search show the bounded tree of its problem. Nothing:
/// it holds a law.
pub fn best_script_law()
    ensures { BestTie }
{}

/// A finished best search of a script has found an assignment that none betters, or that there is none. Nothing: it holds a law.
pub fn optimal_law()
    ensures { FdOptimality }
{}
