//! For how much the constructs count that are open while a text is read.
//!
//! `Depth` takes one token after another, and says whether the last one lies too deep.
#![tactic(auto)]

mod depth;

pub use depth::Depth;
