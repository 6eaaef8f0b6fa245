//! Reading all bytes of a source, and writing a whole reply to a sink.
ghost use Rattle.std.specs.Prelude.{◌≡◌, ◌<◌, ◌≤◌, ◌+◌, ℕ, List, Err, IfOk, OnOk, OnErr, IfSome, length, take, vec_len};
ghost use Rattle.std.specs.Io.KnownBytes.{Appends, Consumes, IsAtEnd};
ghost use Rattle.oz_outside.specs.Counts.{Rose};
ghost use Rattle.oz_outside.specs.declared.transfer.TheConstants.{READ_LIMIT};

use crate::{Failed, Sink, Source};
use std::alloc::Global;

/// The most bytes that are read of a source: 2^20.
pub const READ_LIMIT: usize = 1_048_576;

/// Why not all bytes of a source were read.
#[derive(Clone, Copy, Debug, Drop, PartialEq, Eq)]
pub enum ReadError {
    /// Memory for the bytes was wanting.
    Memory,
    /// A read failed, and the source has counted it.
    Fault,
    /// The source has more bytes than `READ_LIMIT`.
    TooLarge,
}

/// Reads all bytes that are left, and consumes at most one more than `READ_LIMIT`.
///
/// Where neither a read nor an allocation fails, the answer is `Ok` where at most `READ_LIMIT` bytes
/// were left, and `TooLarge` where there were more. Its frame holds a buffer of 16 KiB.
pub fn read_all<S: Source>(alloc: Global, source: &mut S) -> Result<Vec<u8>, ReadError>
    ensures all { IfOk result (λ bytes. Consumes (S.left source.old) (S.left source.new) bytes.items × IsAtEnd (S.left source.new)) }
    ensures fits { IfOk result (λ bytes. vec_len bytes ≤ READ_LIMIT) }
    ensures small { IfOk result (λ _. IfSome (S.left source.old) (λ left. length left ≤ READ_LIMIT)) }
    ensures too_large { result ≡ Err ReadError.TooLarge
        → (bytes : List ℕ) × (length bytes ≡ READ_LIMIT + 1) × Consumes (S.left source.old) (S.left source.new) bytes }
    ensures large { result ≡ Err ReadError.TooLarge → IfSome (S.left source.old) (λ left. READ_LIMIT < length left) }
    ensures memory { result ≡ Err ReadError.Memory → IfSome (S.left source.old) (λ left. 0 < length left) }
    ensures fault { result ≡ Err ReadError.Fault → Rose (S.faults source.old) (S.faults source.new) }
    ensures most { (bytes : List ℕ) × (length bytes ≤ READ_LIMIT + 1) × Consumes (S.left source.old) (S.left source.new) bytes }
    ensures count { S.faults source.old ≤ S.faults source.new }
{
    let mut bytes = Vec::new(alloc);
    let mut piece = [0; 16_384];
    'reads: while bytes.len() <= READ_LIMIT {
        let wanted = (READ_LIMIT + 1 - bytes.len()).min(piece.len());
        match source.read(&mut piece[..wanted]) {
            Ok(0) => return Ok(bytes),
            Ok(n) => {
                if bytes.extend_from_slice(&piece[..n]).is_err() {
                    return Err(ReadError::Memory);
                }
            }
            Err(Failed) => return Err(ReadError::Fault),
        }
    }
    Err(ReadError::TooLarge)
}

/// Writes the whole reply, in as many writes as the sink wants.
///
/// Where a write fails, a part from the front was written, and not the whole.
pub fn write_all<K: Sink>(sink: &mut K, reply: &[u8]) -> Result<(), Failed>
    ensures whole { OnOk result (Appends (K.written sink.old) (K.written sink.new) reply.now) }
    ensures part { OnErr result ((n : ℕ) × (n < length reply.now)
        × Appends (K.written sink.old) (K.written sink.new) (take n reply.now)) }
    ensures fault { OnErr result (Rose (K.faults sink.old) (K.faults sink.new)) }
    ensures count { K.faults sink.old ≤ K.faults sink.new }
{
    let mut done = 0;
    'writes: while done < reply.len() {
        done += sink.write(&reply[done..])?;
    }
    Ok(())
}
