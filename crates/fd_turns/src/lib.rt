//! Laws of the turns of a search in a script's one space.
#![tactic(auto)]
