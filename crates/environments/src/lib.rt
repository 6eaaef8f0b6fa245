//! Which variables the identifiers of a program stand for (CTM 2.4.2). Copies share what they have in common.
#![tactic(auto)]

mod environment;
mod recent;

pub use environment::Environment;
