//! Everything that a store was told, in order.
ghost use Rattle.std.specs.Prelude.{None, ℕ, ◌≡◌, ◌++◌, ◌∷◌, ◌<◌, ◌+◌, ◌-◌, ◌*◌, ◌^◌, [], length, slice_get, Some, OnOk, OnErr, IfOk, option_copied, vec_capacity};
ghost use Rattle.oz_semantics.specs.declared.value.Tell.{Tell};
ghost use Rattle.term_store.specs.Places.{value_told, value_at};
ghost use Rattle.term_store.specs.Logs.{told_in, with_ended, HasRoom};

use crate::chunk::{Chunk, copy_of};
use oz_base::Copies;
use oz_semantics::{Tell, Value};
use shared_list::SharedList;
use std::alloc::{AllocError, Global};
use std::marker::Model;
use std::mem;

/// How many tells stand in a chunk.
const CHUNK: u64 = 32;

/// Everything that was told: full chunks, which copies share, and the last tells, which are at most as many as stand in a chunk.
///
/// The chunk that ended last stands by itself until the next one ends: so a lack of memory loses no tell.
#[derive(Drop)]
pub struct Log {
    chunks: SharedList<Chunk>,
    ended: Option<Chunk>,
    rest: Vec<Tell>,
    /// How many tells stand in chunks.
    listed: u64,
}

impl Model for Log {
    ghost use Rattle.std.specs.Prelude.{◌≡◌, ◌<◌, ◌≤◌, ◌*◌, ◌^◌, length, vec_capacity};
    ghost use Rattle.std.specs.Coded.{codes};
    ghost use Rattle.environments.specs.contracts.environment.Environment as environment;
    ghost use Rattle.term_store.specs.Logs.{Written, told_in, with_ended, AllFull};

    ghost Value = { Written };

    ghost coded = { Prim.hlevel (codes, environment.the_row.coded) };

    ghost view = { λ l. record { chunks = with_ended l.chunks l.ended; rest = l.rest.items; capacity = vec_capacity l.rest } };

    ghost invariant = { λ l. AllFull (with_ended l.chunks l.ended) × (length l.rest.items ≤ 32) × (length (told_in record { chunks = with_ended l.chunks l.ended; rest = l.rest.items; capacity = vec_capacity l.rest }) < 2 ^ 64) × (l.listed ≡ 32 * length (with_ended l.chunks l.ended)) };
}

/// The value that a tell gives its variable.
fn value_of(tell: &Tell) -> Option<&Value>
    ensures { option_copied result ≡ value_told (Some tell.now) }
{
    match tell {
        Tell::Equal { .. } => None,
        Tell::Is { value, .. } => Some(value),
        Tell::Within { .. } => None,
    }
}

/// A copy of each tell, in a vector of just their size.
fn copies_of(alloc: Global, tells: &[Tell]) -> Result<Vec<Tell>, AllocError>
    ensures { IfOk result (λ copy. copy.items ≡ tells.now) }
{
    let mut copy = Vec::with_capacity(alloc, tells.len())?;
    for tell in tells {
        copy.push(tell.copied(alloc)?)?;
    }
    Ok(copy)
}

/// The tell at this place among others.
fn at(tells: &[Tell], place: usize) -> Option<&Tell>
    ensures { option_copied result ≡ slice_get tells.now place }
{
    tells.get(place)
}

/// Adds a tell to others that have room for it.
fn put_behind(tells: &mut Vec<Tell>, tell: Tell)
    requires { length tells.old.items < vec_capacity tells.old }
    ensures { tells.new.items ≡ tells.old.items ++ tell ∷ [] }
{
    if tells.push(tell).is_err() {
        unreachable!();
    }
}

/// The chunk at this place.
fn chunk_at<'a>(
    chunks: &'a SharedList<Chunk>,
    ended: Option<&'a Chunk>,
    place: u64,
) -> Option<&'a Chunk>
    ensures { option_copied result ≡ slice_get (with_ended chunks.now (option_copied ended.entry)) place }
{
    if place == chunks.len() {
        return ended;
    }
    chunks.get(place)
}

/// Puts the chunk that ended last behind the others.
fn put_ended(
    alloc: Global,
    chunks: &mut SharedList<Chunk>,
    ended: &mut Option<Chunk>,
) -> Result<(), AllocError>
    ensures same { with_ended chunks.new ended.new ≡ with_ended chunks.old ended.old }
    ensures filed { OnOk result (ended.new ≡ None) }
{
    let Some(chunk) = copy_of(alloc, ended.as_ref())? else {
        return Ok(());
    };
    chunks.push(alloc, chunk)?;
    *ended = None;
    Ok(())
}

/// Makes a chunk of the tells, and leaves none.
fn chunk_of(alloc: Global, tells: &mut Vec<Tell>) -> Result<Chunk, AllocError>
    ensures chunk { IfOk result (λ chunk. chunk ≡ tells.old.items) }
    ensures ok { OnOk result (tells.new.items ≡ []) }
    ensures err { OnErr result (tells.new.items ≡ tells.old.items) }
{
    let spare = Vec::with_capacity(alloc, CHUNK as usize)?;
    let full = mem::replace(tells, spare);
    match Chunk::new(alloc, full) {
        Ok(chunk) => Ok(chunk),
        Err(back) => {
            *tells = back;
            Err(AllocError)
        }
    }
}

impl Log {
    /// Nothing was told. It takes no memory.
    pub fn new(alloc: Global) -> Log
        ensures { told_in result ≡ [] }
    {
        Log {
            chunks: SharedList::new(),
            ended: None,
            rest: Vec::new(alloc),
            listed: 0,
        }
    }

    /// How much stands in chunks.
    fn listed(&self) -> u64
        ensures { result ≡ 32 * length self.now.chunks }
    {
        self.listed
    }

    /// How much was told.
    pub fn len(&self) -> u64
        ensures { result ≡ length (told_in self.now) }
    {
        self.listed() + self.rest.len() as u64
    }

    /// What stands at this place in a chunk.
    fn in_chunk(&self, chunk: u64, place: usize) -> Option<&Tell>
        requires chunk { chunk < length self.now.chunks }
        requires place { place < 32 }
        ensures { option_copied result ≡ slice_get (told_in self.now) (32 * chunk + place) }
    {
        match chunk_at(&self.chunks, self.ended.as_ref(), chunk) {
            None => None,
            Some(tells) => at(tells.as_slice(), place),
        }
    }

    /// What was told at this place, from 0.
    pub fn get(&self, place: u64) -> Option<&Tell>
        ensures { option_copied result ≡ slice_get (told_in self.now) place }
    {
        let listed = self.listed();
        if place < listed {
            return self.in_chunk(place / CHUNK, (place % CHUNK) as usize);
        }
        at(self.rest.as_slice(), (place - listed) as usize)
    }

    /// The value that was told at this place.
    pub fn value(&self, place: u64) -> Option<&Value>
        ensures { option_copied result ≡ value_at (told_in self.now) place }
    {
        match self.get(place) {
            None => None,
            Some(tell) => value_of(tell),
        }
    }

    /// Makes a chunk of the rest, which has as many tells.
    fn end_chunk(&mut self, alloc: Global) -> Result<(), AllocError>
        requires full { length self.old.rest ≡ 32 }
        ensures told { told_in self.new ≡ told_in self.old }
        ensures rest { OnOk result (self.new.rest ≡ []) }
    {
        put_ended(alloc, &mut self.chunks, &mut self.ended)?;
        let chunk = chunk_of(alloc, &mut self.rest)?;
        self.ended = Some(chunk);
        self.listed += CHUNK;
        Ok(())
    }

    /// Makes room for one tell more. An error is for lack of memory, or after 2^64 - 1 tells.
    pub fn make_room(&mut self, alloc: Global) -> Result<(), AllocError>
        ensures told { told_in self.new ≡ told_in self.old }
        ensures room { OnOk result (HasRoom self.new) }
        ensures space { OnOk result (length (told_in self.new) < 2 ^ 64 - 1) }
    {
        if self.len() == u64::MAX {
            return Err(AllocError);
        }
        if self.rest.len() as u64 == CHUNK {
            self.end_chunk(alloc)?;
        }
        self.rest.reserve(1)
    }

    /// Adds a tell, for which there is room.
    pub fn put(&mut self, tell: Tell)
        requires room { HasRoom self.old }
        requires space { length (told_in self.old) < 2 ^ 64 - 1 }
        ensures { told_in self.new ≡ told_in self.old ++ tell ∷ [] }
    {
        put_behind(&mut self.rest, tell);
    }

    /// Adds a tell. An error is for lack of memory.
    pub fn push(&mut self, alloc: Global, tell: Tell) -> Result<(), AllocError>
        ensures ok { OnOk result (told_in self.new ≡ told_in self.old ++ tell ∷ []) }
        ensures err { OnErr result (told_in self.new ≡ told_in self.old) }
    {
        self.make_room(alloc)?;
        self.put(tell);
        Ok(())
    }

    /// A copy, in constant time: it shares the chunks.
    pub fn copy(&self, alloc: Global) -> Result<Log, AllocError>
        ensures { IfOk result (λ copy. told_in copy ≡ told_in self.now) }
    {
        Ok(Log {
            chunks: self.chunks.copied(alloc)?,
            ended: copy_of(alloc, self.ended.as_ref())?,
            rest: copies_of(alloc, self.rest.as_slice())?,
            listed: self.listed,
        })
    }
}
