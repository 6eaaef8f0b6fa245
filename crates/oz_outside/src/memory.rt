//! A source and a sink in memory for tests, which fail at stated calls.
ghost use Rattle.std.specs.Prelude.{◌≡◌, ◌<◌, ◌≤◌, ◌-◌, ◌⊎◌, ◌↔◌, min, Some, [], length, IfOk, OnErr, IsErr, IsTrue, MatchResult, Contains};
ghost use Rattle.std.specs.Io.KnownBytes.{ReadConsumes, WriteAppends};
ghost use Rattle.oz_outside.specs.Counts.{next_count, Rose};

use crate::{Failed, Sink, Source};
use std::alloc::{AllocError, Global};
use std::marker::Model;

/// Gives bytes that lie in memory.
///
/// It hands over at most `chunk` bytes a call, and fails at exactly the calls whose numbers, from 1,
/// stand in `fails`. Both counts stay at 2^64 - 1 once they are there.
#[derive(Drop)]
pub struct MemSource {
    bytes: Vec<u8>,
    at: usize,
    chunk: usize,
    schedule: Schedule,
}

impl Model for MemSource {
    ghost use Rattle.std.specs.Prelude.{drop, length, vec_len, ◌≤◌, ◌<◌};
    ghost use Rattle.oz_outside.specs.Memory.{Supply};

    ghost Value = { Supply };

    ghost view = { λ s. record {
      left = drop s.at s.bytes.items;
      chunk = s.chunk;
      fails = s.schedule.fails.items;
      calls = s.schedule.calls;
      faults = s.schedule.faults;
    } };

    ghost invariant = { λ s. (s.at ≤ vec_len s.bytes) × (0 < s.chunk) };
}

impl MemSource {
    /// A source with a copy of these bytes. Memory for the copies may be wanting.
    pub fn new(alloc: Global, bytes: &[u8], chunk: usize, fails: &[u64]) -> Result<Self, AllocError>
        requires { 0 < chunk }
        ensures left { IfOk result (λ s. s.left ≡ bytes.now) }
        ensures plan { IfOk result (λ s. (s.chunk ≡ chunk) × (s.fails ≡ fails.now)) }
        ensures counts { IfOk result (λ s. (s.calls ≡ 0) × (s.faults ≡ 0)) }
    {
        Ok(MemSource {
            bytes: Vec::from_slice(alloc, bytes)?,
            at: 0,
            chunk,
            schedule: Schedule::new(alloc, fails)?,
        })
    }
}

impl Source for MemSource {
    ghost left = { λ s. Some s.left };

    ghost faults = { λ s. s.faults };

    fn read(&mut self, buf: &mut [u8]) -> Result<usize, Failed>
        ensures bound { IfOk result (λ n. n ≤ length buf.new) }
        ensures bytes { ReadConsumes (Some self.old.left) (Some self.new.left) result buf.new }
        ensures count { self.old.faults ≤ self.new.faults }
        ensures fault { OnErr result (Rose self.old.faults self.new.faults) }
        ensures amount { IfOk result (λ n. n ≡ min (min (length self.old.left) self.old.chunk) (length buf.old)) }
        ensures fails { IsErr result ↔ Contains self.old.fails self.new.calls }
        ensures calls { self.new.calls ≡ next_count self.old.calls }
        ensures faults { MatchResult result (λ _. self.new.faults ≡ self.old.faults) (λ _. self.new.faults ≡ next_count self.old.faults) }
        ensures plan { (self.new.chunk ≡ self.old.chunk) × (self.new.fails ≡ self.old.fails) }
    {
        if self.schedule.fails_next() {
            return Err(self.schedule.fault());
        }
        let rest = &self.bytes[self.at..];
        let n = rest.len().min(self.chunk).min(buf.len());
        buf[..n].copy_from_slice(&rest[..n]);
        self.at += n;
        Ok(n)
    }
}

/// Keeps the bytes written in memory.
///
/// It has a place for `room` bytes, which is made at the start: a write takes no memory. It takes at
/// most `chunk` bytes a call, and fails at exactly the calls whose numbers, from 1, stand in `fails`,
/// and those that bring bytes where no place is free. Both counts stay at 2^64 - 1 once they are there.
#[derive(Drop)]
pub struct MemSink {
    bytes: Vec<u8>,
    room: usize,
    chunk: usize,
    schedule: Schedule,
}

impl Model for MemSink {
    ghost use Rattle.std.specs.Prelude.{vec_len, vec_capacity, ◌≤◌, ◌<◌};
    ghost use Rattle.oz_outside.specs.Memory.{Store};

    ghost Value = { Store };

    ghost view = { λ s. record {
      written = s.bytes.items;
      room = s.room;
      chunk = s.chunk;
      fails = s.schedule.fails.items;
      calls = s.schedule.calls;
      faults = s.schedule.faults;
    } };

    ghost invariant = { λ s. (vec_len s.bytes ≤ s.room) × (s.room ≤ vec_capacity s.bytes) × (0 < s.chunk) };
}

impl MemSink {
    /// An empty sink. Memory for the place may be wanting.
    pub fn new(alloc: Global, room: usize, chunk: usize, fails: &[u64]) -> Result<Self, AllocError>
        requires { 0 < chunk }
        ensures written { IfOk result (λ s. s.written ≡ []) }
        ensures plan { IfOk result (λ s. (s.room ≡ room) × (s.chunk ≡ chunk) × (s.fails ≡ fails.now)) }
        ensures counts { IfOk result (λ s. (s.calls ≡ 0) × (s.faults ≡ 0)) }
    {
        Ok(MemSink {
            bytes: Vec::with_capacity(alloc, room)?,
            room,
            chunk,
            schedule: Schedule::new(alloc, fails)?,
        })
    }

    /// The bytes written so far, at most as many as there is room for.
    pub fn written(&self) -> &[u8]
        ensures written { result.now ≡ self.now.written }
        ensures within { length result.now ≤ self.now.room }
    {
        self.bytes.as_slice()
    }
}

impl Sink for MemSink {
    ghost written = { λ s. Some s.written };

    ghost faults = { λ s. s.faults };

    fn write(&mut self, piece: &[u8]) -> Result<usize, Failed>
        ensures bound { IfOk result (λ n. n ≤ length piece.now) }
        ensures some { IfOk result (λ n. 0 < length piece.now → 0 < n) }
        ensures bytes { WriteAppends (Some self.old.written) (Some self.new.written) result piece.now }
        ensures count { self.old.faults ≤ self.new.faults }
        ensures fault { OnErr result (Rose self.old.faults self.new.faults) }
        ensures amount { IfOk result (λ n. n ≡ min (min (length piece.now) self.old.chunk) (self.old.room - length self.old.written)) }
        ensures fails { IsErr result
            ↔ (Contains self.old.fails self.new.calls ⊎ ((length self.old.written ≡ self.old.room) × (0 < length piece.now))) }
        ensures calls { self.new.calls ≡ next_count self.old.calls }
        ensures faults { MatchResult result (λ _. self.new.faults ≡ self.old.faults) (λ _. self.new.faults ≡ next_count self.old.faults) }
        ensures plan { (self.new.room ≡ self.old.room) × (self.new.chunk ≡ self.old.chunk) × (self.new.fails ≡ self.old.fails) }
        ensures within { length self.new.written ≤ self.new.room }
    {
        if self.schedule.fails_next() {
            return Err(self.schedule.fault());
        }
        let free = self.room - self.bytes.len();
        if free == 0 && !piece.is_empty() {
            return Err(self.schedule.fault());
        }
        let n = piece.len().min(self.chunk).min(free);
        match self.bytes.extend_from_slice(&piece[..n]) {
            Ok(()) => Ok(n),
            Err(_) => unreachable!(),
        }
    }
}

/// Which calls fail, and how many were made and failed so far.
#[derive(Drop)]
struct Schedule {
    fails: Vec<u64>,
    calls: u64,
    faults: u64,
}

impl Schedule {
    fn new(alloc: Global, fails: &[u64]) -> Result<Self, AllocError>
        ensures starts { IfOk result (λ s. (s.fails.items ≡ fails.now) × (s.calls ≡ 0) × (s.faults ≡ 0)) }
    {
        Ok(Schedule {
            fails: Vec::from_slice(alloc, fails)?,
            calls: 0,
            faults: 0,
        })
    }

    /// Counts one more call. Whether it is one that fails.
    fn fails_next(&mut self) -> bool
        ensures fails { IsTrue result ↔ Contains self.old.fails.items self.new.calls }
        ensures calls { self.new.calls ≡ next_count self.old.calls }
        ensures kept { (self.new.fails ≡ self.old.fails) × (self.new.faults ≡ self.old.faults) }
    {
        self.calls = self.calls.saturating_add(1);
        self.fails.contains(&self.calls)
    }

    /// Counts one more fault.
    fn fault(&mut self) -> Failed
        ensures faults { self.new.faults ≡ next_count self.old.faults }
        ensures kept { (self.new.fails ≡ self.old.fails) × (self.new.calls ≡ self.old.calls) }
    {
        self.faults = self.faults.saturating_add(1);
        Failed
    }
}
