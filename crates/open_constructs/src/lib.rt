//! The constructs that are open while a text is read, and what goes onto them.
//!
//! `frame` says what is open, with what was read of it, and `stack` keeps it, the newest last. `levels` has how tightly phrases
//! bind, and `sides` what may stand in a relation. Contracts see what is open as the stack of the machine of reader_law (`View`).
#![tactic(auto)]

mod error;
mod frame;
mod levels;
mod sides;
mod stack;

pub use error::StepError;
pub use frame::{BOTH_WAYS, Block, Fields, Frame, Kind, Listing, Maker, Opener, Ways};
pub use levels::{BARS, HASHES, SELECTIONS, allows, binds, left_level, level_of};
pub use sides::{has_room, have_room, is_reference, is_side, is_small, is_small_int};
pub use stack::{
    begun, ends, had, in_block, innermost, is_alive, is_some_item, is_var, kind_of, may_state,
    may_value, open_block, pop, pop_block, pop_fields, push, value,
};
