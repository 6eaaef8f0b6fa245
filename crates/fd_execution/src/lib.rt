//! Laws of the execution of a finite-domain script: what its statements do to the store that its space stands for.
#![tactic(auto)]
