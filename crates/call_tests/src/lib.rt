//! Tests of the whole call: searches by several workers answer as the search by one.
#![tactic(auto)]

#[cfg(test)]
mod workers;
