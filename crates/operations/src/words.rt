//! The numbers of the words that each text has, as far as the states of spaces speak of them.

pub const FAILED: u32 = 50;

pub const SUCCEEDED: u32 = 51;

pub const ALTERNATIVES: u32 = 52;

pub const RAISED: u32 = 53;

pub const MERGED: u32 = 54;

pub const OPAQUE: u32 = 55;
