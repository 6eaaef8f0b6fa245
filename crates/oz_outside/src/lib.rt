//! What a program reads from, writes to, and is held up by: sources of bytes, sinks of bytes and gates.
#![tactic(auto)]

mod gates;
mod memory;
mod standard;
mod streams;
mod transfer;

pub use gates::{Gate, HoldGate, OpenGate};
pub use memory::{MemSink, MemSource};
pub use standard::{StdSink, StdSource};
pub use streams::{Failed, Sink, Source};
pub use transfer::{READ_LIMIT, ReadError, read_all, write_all};
