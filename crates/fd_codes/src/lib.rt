//! The kernel statements that a finite-domain script becomes.
//!
//! The function does nothing: its contract is a law. `specs/Codes` has the statements.
#![tactic(auto)]

ghost use Rattle.fd_codes.specs.Laws.{ScriptsCoded};

/// Statements that state items of a problem, and then distribute, become these kernel statements. Nothing: it holds a law.
pub fn code_law()
    ensures { ScriptsCoded }
{}
