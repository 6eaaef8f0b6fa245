//! The cells and ports of one computation space (CTM 6, 5).
#![tactic(auto)]

mod objects;

pub use objects::Objects;
