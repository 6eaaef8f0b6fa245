//! A map from the names of variables, threads and other entries of spaces, whose copies share what they have in common.
#![tactic(auto)]

mod map;

pub use map::IdentMap;
