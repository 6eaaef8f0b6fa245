//! The numbers of the words that each text has, as far as the terms speak of them.

pub const NIL: u32 = 22;

pub const BAR: u32 = 23;

pub const FAILURE: u32 = 26;

pub const TELL: u32 = 27;

pub const FAIL: u32 = 28;

pub const TOP: u32 = 29;

pub const SPACE: u32 = 30;

pub const ERROR: u32 = 31;

pub const KERNEL: u32 = 32;

pub const OVERFLOW: u32 = 33;

pub const DIV_ZERO: u32 = 34;

pub const KIND: u32 = 35;

pub const APPLY: u32 = 36;

pub const ARITY: u32 = 37;

pub const FEATURE: u32 = 38;

pub const BOOLEAN: u32 = 39;

pub const NO_ELSE: u32 = 40;

pub const DOMAIN: u32 = 41;

pub const SPACE_PARENT: u32 = 42;

pub const SPACE_CHOICE: u32 = 43;

pub const SPACE_MERGED: u32 = 44;

pub const SPACE_RAISED: u32 = 45;

pub const GLOBAL_STATE: u32 = 46;

pub const CELL: u32 = 47;

pub const PORT: u32 = 48;

pub const IO: u32 = 49;
