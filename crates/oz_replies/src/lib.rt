//! What the program answers to words and a text: the definitions `Replies`, and why a call ended.
#![tactic(auto)]

mod cause;

pub use cause::Cause;
