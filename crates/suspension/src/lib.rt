//! Threads of a space that wait, found by the variables for which they wait (CTM 2.4).
#![tactic(auto)]

ghost use Rattle.suspension.specs.Sleeping.{KeysStay, FoundStays};

mod numbers;
mod sleepers;

pub use sleepers::Sleepers;

/// What stays so where more is told that touches no key. Nothing: it holds laws.
pub fn later_law()
    ensures keys { KeysStay }
    ensures found { FoundStays }
{}
