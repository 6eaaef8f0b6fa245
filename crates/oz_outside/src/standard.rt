//! std's readers and writers as sources and sinks.
ghost use Rattle.std.specs.Prelude.{◌≡◌, ◌<◌, ◌≤◌, length, IfOk, OnErr, MatchResult};
ghost use Rattle.std.specs.Io.KnownBytes.{ReadConsumes, WriteAppends};
ghost use Rattle.oz_outside.specs.Counts.{next_count, Rose};

use crate::{Failed, Sink, Source};
use std::io::{Read, Write};

/// Reads from a reader of std, and counts its errors.
///
/// It tells of the bytes that are left what the reader tells: nothing for a file or a terminal.
#[derive(Drop)]
pub struct StdSource<R> {
    reader: R,
    faults: u64,
}

impl<R> StdSource<R> {
    ghost use Rattle.oz_outside.specs.Standard.{source_reader, source_faults};

    /// A source over this reader, with no fault counted yet.
    pub fn new(reader: R) -> Self
        ensures reader { source_reader result ≡ reader }
        ensures faults { source_faults result ≡ 0 }
    {
        StdSource { reader, faults: 0 }
    }
}

impl<R: Read> Source for StdSource<R> {
    ghost use Rattle.oz_outside.specs.Standard.{source_reader, source_faults};

    ghost left = { λ s. R.remaining (source_reader s) };

    ghost faults = { source_faults };

    fn read(&mut self, buf: &mut [u8]) -> Result<usize, Failed>
        ensures bound { IfOk result (λ n. n ≤ length buf.new) }
        ensures bytes { ReadConsumes (R.remaining (source_reader self.old)) (R.remaining (source_reader self.new)) result buf.new }
        ensures count { source_faults self.old ≤ source_faults self.new }
        ensures fault { OnErr result (Rose (source_faults self.old) (source_faults self.new)) }
        ensures faults { MatchResult result (λ _. source_faults self.new ≡ source_faults self.old)
            (λ _. source_faults self.new ≡ next_count (source_faults self.old)) }
    {
        match self.reader.read(buf) {
            Ok(n) => Ok(n),
            Err(_) => {
                self.faults = self.faults.saturating_add(1);
                Err(Failed)
            }
        }
    }
}

/// Writes to a writer of std, and counts its errors.
///
/// A writer that takes no byte of a piece that is not empty is counted as a fault too. It tells of
/// the bytes written what the writer tells: nothing for a file or a terminal.
#[derive(Drop)]
pub struct StdSink<W> {
    writer: W,
    faults: u64,
}

impl<W> StdSink<W> {
    ghost use Rattle.oz_outside.specs.Standard.{sink_writer, sink_faults};

    /// A sink over this writer, with no fault counted yet.
    pub fn new(writer: W) -> Self
        ensures writer { sink_writer result ≡ writer }
        ensures faults { sink_faults result ≡ 0 }
    {
        StdSink { writer, faults: 0 }
    }
}

impl<W: Write> Sink for StdSink<W> {
    ghost use Rattle.oz_outside.specs.Standard.{sink_writer, sink_faults};

    ghost written = { λ s. W.contents (sink_writer s) };

    ghost faults = { sink_faults };

    fn write(&mut self, piece: &[u8]) -> Result<usize, Failed>
        ensures bound { IfOk result (λ n. n ≤ length piece.now) }
        ensures some { IfOk result (λ n. 0 < length piece.now → 0 < n) }
        ensures bytes { WriteAppends (W.contents (sink_writer self.old)) (W.contents (sink_writer self.new)) result piece.now }
        ensures count { sink_faults self.old ≤ sink_faults self.new }
        ensures fault { OnErr result (Rose (sink_faults self.old) (sink_faults self.new)) }
        ensures faults { MatchResult result (λ _. sink_faults self.new ≡ sink_faults self.old)
            (λ _. sink_faults self.new ≡ next_count (sink_faults self.old)) }
    {
        match self.writer.write(piece) {
            Ok(n) if n > 0 || piece.is_empty() => Ok(n),
            _ => {
                self.faults = self.faults.saturating_add(1);
                Err(Failed)
            }
        }
    }
}
