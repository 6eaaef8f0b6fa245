//! What `best` answers for a script with a cost: it runs the top, searches the tree of the script for a solution of the least cost, and says
//! what was found (branch and bound: Schulte, LNCS 2302).
//!
//! `specs/Told` says which answer what was found is. `start` goes to where the search begins, `plans` makes what is to be written, and
//! `answers` does all.
#![tactic(auto)]

mod answers;
mod plans;
mod start;

pub use answers::best_answer;
