//! The numbers of the words that each text has, as far as inputs speak of them.

/// `nil`, the end of a list.
pub const NIL: u32 = 22;

/// `|`, the label of a cell.
pub const BAR: u32 = 23;

/// `#`, the label of bounds.
pub const HASH: u32 = 24;

/// The rules of distributors.
pub const NAIVE: u32 = 59;

pub const FF: u32 = 60;

pub const SPLIT: u32 = 61;
