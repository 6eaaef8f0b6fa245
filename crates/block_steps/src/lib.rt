//! The reader's steps in blocks: their phrases, one after another.
//!
//! `blocks` has how the next phrase begins and what is still possible behind one that has ended, and `connectives` what comes
//! behind the first expression of a phrase.
#![tactic(auto)]

mod blocks;
mod connectives;

pub use blocks::{item, item_over};
pub use connectives::behind_item;
