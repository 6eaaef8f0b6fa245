//! The scope of names: the fault that decides of a program's variables without a binding, and of what stands twice.
#![tactic(auto)]

mod checker;
mod features;
mod found;
mod names;

pub use checker::first_fault;
