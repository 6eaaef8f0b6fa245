//! The threads of one space that sleep: they wait for variables alone, and are asked again only once one of these is touched (CTM 2.4).
#![tactic(auto)]

mod asking;
mod sleeping;
mod waking;

pub use asking::ask_told;
pub use sleeping::Sleeping;
pub use waking::woken;
