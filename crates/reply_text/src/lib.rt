//! The text of replies: a line for each term that was shown, a line for each leaf of a search, and the totals; and the lines of a best
//! solution.
#![tactic(auto)]

mod best;
mod reply;

pub use best::add_best;
pub use reply::{add_decimal, add_leaves_reply, lines};
