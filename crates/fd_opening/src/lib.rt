//! Laws of the top from which the search of a finite-domain script begins.
//!
//! Each function does nothing: its contract is a law. `specs/Opened` says what such a top is.
#![tactic(auto)]

ghost use Rattle.fd_form_law.specs.FdOptimality.{TopRests};
ghost use Rattle.fd_opening.specs.Laws.{ScriptsBegin};

/// Where the one statement of a program makes `Script` a procedure, and the run of its top ended, the top has the built-ins, `FD` and
/// `Script`, and the search begins with a space that applies `Script` to its root variable. Nothing: it holds a law.
pub fn opening_law()
    ensures { ScriptsBegin }
{}

/// The top of a script comes to rest in one step, within any budget of 1 at least. Nothing: it holds a law.
pub fn rests_law()
    ensures { TopRests }
{}
