//! Laws of the steps of a search's space, as steps of the store that it stands for.
#![tactic(auto)]
