//! Finite domains (CTM 12; Schulte 4): the definitions in `specs/` of domains, of relations with their passes, and of distribution.
//! In the order in which to read them: `Domains`, `Positions`, `Relations`, `Passes`, `Splits`. There is no code here.
#![tactic(auto)]
