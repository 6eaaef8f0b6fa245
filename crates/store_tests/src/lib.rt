//! Tests of the store, and of what a statement, a built-in and an operation on a space come to over it.
#![tactic(auto)]

#[cfg(test)]
mod calls;
#[cfg(test)]
mod equalities;
#[cfg(test)]
mod exceptions;
#[cfg(test)]
mod patterns;
#[cfg(test)]
mod renamed;
#[cfg(test)]
mod shown;
#[cfg(test)]
mod spaces;
#[cfg(test)]
mod steps;
#[cfg(test)]
mod stores;
#[cfg(test)]
mod told;
