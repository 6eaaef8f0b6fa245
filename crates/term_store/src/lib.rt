//! What a space sees: everything that it and its ancestors were told, and the classes of variables that this makes equal
//! (CTM 2.2, 2.8).
#![tactic(auto)]

mod cell;
mod chunk;
mod class_domain;
mod classes;
mod closing;
mod log;
mod places;
mod store;
mod values;
mod variable_domain;

pub use classes::Classes;
pub use places::place_law;
pub use store::Store;
pub use values::{fields_of, is_like};
pub use variable_domain::VariableDomain;
