//! Tests of domains, of propagators, and of distributors.
#![tactic(auto)]

#[cfg(test)]
mod choices;
#[cfg(test)]
mod domains;
#[cfg(test)]
mod passes;
#[cfg(test)]
mod rows;
