//! What a call of the program answers, reads and writes: the definitions in `specs/`, and laws that follow from them. There is no code here.
#![tactic(auto)]
