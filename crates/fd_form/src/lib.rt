//! Which programs state a finite-domain problem, and which problem that is (CTM 12.2; Schulte, LNCS 2302, chapter 2).
//!
//! `names` reads names, integers and atoms, `records` the record of the answer, `vectors` the variables of a vector and `bounds` the
//! description of a domain. `sums` reads relations, `statements` what each statement states, and `programs` goes over a program. `costs`
//! finds the cost of a script.
#![tactic(auto)]

mod bounds;
mod costs;
mod lists;
mod names;
mod programs;
mod records;
mod script;
mod statements;
mod sums;
mod vectors;

pub use costs::{Cost, cost_of};
pub use programs::fd_form;
pub use script::FdScript;
