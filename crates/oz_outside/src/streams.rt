//! Sources and sinks of bytes, each with a count of its faults.
ghost use Rattle.std.specs.Prelude.{◌<◌, ◌≤◌, ℕ, List, Option, None, IfOk, OnErr, length};
ghost use Rattle.std.specs.Io.KnownBytes.{ReadConsumes, WriteAppends};
ghost use Rattle.oz_outside.specs.Counts.{Rose};

/// A read or a write failed, and the source or sink has counted it.
#[derive(Clone, Copy, Debug, Drop, PartialEq, Eq)]
pub struct Failed;

/// Where bytes come from.
pub trait Source {
    // The bytes that are left, where the source tells them.
    ghost left: { Self → Option (List ℕ) } = { λ _. None };

    // How many reads failed.
    ghost faults: { Self → ℕ };

    /// Puts the next bytes at the front of the buffer, and returns how many.
    ///
    /// `Ok(0)` for a buffer that is not empty means that nothing is left. `Failed` comes only where
    /// the count of faults rose, and leaves the bytes that are left as they were.
    fn read(&mut self, buf: &mut [u8]) -> Result<usize, Failed>
        ensures bound { IfOk result (λ n. n ≤ length buf.new) }
        ensures bytes { ReadConsumes (left self.old) (left self.new) result buf.new }
        ensures count { faults self.old ≤ faults self.new }
        ensures fault { OnErr result (Rose (faults self.old) (faults self.new)) };
}

/// Where bytes go.
pub trait Sink {
    // The bytes written so far, where the sink tells them.
    ghost written: { Self → Option (List ℕ) } = { λ _. None };

    // How many writes failed.
    ghost faults: { Self → ℕ };

    /// Takes bytes from the front of the piece, at least one where it has any, and returns how many.
    ///
    /// `Failed` comes only where the count of faults rose, and leaves the bytes written as they were.
    fn write(&mut self, piece: &[u8]) -> Result<usize, Failed>
        ensures bound { IfOk result (λ n. n ≤ length piece.now) }
        ensures some { IfOk result (λ n. 0 < length piece.now → 0 < n) }
        ensures bytes { WriteAppends (written self.old) (written self.new) result piece.now }
        ensures count { faults self.old ≤ faults self.new }
        ensures fault { OnErr result (Rose (faults self.old) (faults self.new)) };
}
