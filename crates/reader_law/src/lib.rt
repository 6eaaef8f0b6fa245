//! The reader as a machine: it takes one token after another over a stack of the constructs that are open.
//!
//! `Machine` defines its steps. Each function here does nothing: its contract is a law. By them the token at which the machine
//! stops is the first with which the tokens begin no program.
#![tactic(auto)]

ghost use Rattle.reader_law.specs.Laws.{ParsesLaw, BeginsLaw};

/// The machine accepts exactly what the grammar derives.
pub fn parses_law()
    ensures { ParsesLaw }
{}

/// The machine goes through tokens exactly where some program begins with them.
pub fn begins_law()
    ensures { BeginsLaw }
{}
