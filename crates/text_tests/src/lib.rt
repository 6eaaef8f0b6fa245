//! Tests of what reads the words and the text of a call, of the translation, of how kernels are written, and of the form of
//! finite-domain scripts.
#![tactic(auto)]

#[cfg(test)]
mod commands;
#[cfg(test)]
mod kernels;
#[cfg(test)]
mod problems;
#[cfg(test)]
mod programs;
#[cfg(test)]
mod scopes;
#[cfg(test)]
mod streams;
#[cfg(test)]
mod tokens;
