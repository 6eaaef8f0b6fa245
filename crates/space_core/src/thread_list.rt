//! The threads of a space in their order, of which the first ones go without the others being moved.
ghost use Rattle.std.specs.Prelude.{◌≡◌, ◌<◌, ◌≤◌, ◌++◌, ◌∷◌, List, [], drop, length, map, filter, slice_index_or, IfOk, OnOk, OnErr};
ghost use Rattle.std.specs.List.{remove};
ghost use Rattle.std.specs.Borrow.{sem};
ghost use Rattle.oz_semantics.specs.Renamings.{renamed_thread};
ghost use Rattle.renamed_terms.specs.Meanings.{renaming_of};
ghost use Rattle.space_core.specs.Threads.{goes_on};

use crate::ended::is_terminated;
use oz_base::{Stack, copies_of};
use oz_semantics::Thread;
use renamed_terms::Renamed;
use renamings::Renaming;
use std::alloc::{AllocError, Global};
use std::marker::Model;

/// Contracts see the list of the threads that are there.
#[derive(Drop)]
pub struct ThreadList {
    threads: Vec<Thread>,
    /// So many of the first ones are gone.
    gone: usize,
}

impl Model for ThreadList {
    ghost use Rattle.std.specs.Prelude.{◌≤◌, List, drop, length};
    ghost use Rattle.std.specs.Coded.{codes};
    ghost use Rattle.environments.specs.contracts.environment.Environment as environment;
    ghost use Rattle.oz_semantics.specs.declared.configuration.Thread.{Thread};

    ghost Value = { List Thread };

    ghost coded = { Prim.hlevel (codes, environment.the_row.coded) };

    ghost view = { λ t. drop t.gone t.threads.items };

    ghost invariant = { λ t. t.gone ≤ length t.threads.items };
}

impl ThreadList {
    ghost use Rattle.space_core.specs.Lending.{lends_thread};

    pub fn new(alloc: Global) -> ThreadList
        ensures { result ≡ [] }
    {
        ThreadList {
            threads: Vec::new(alloc),
            gone: 0,
        }
    }

    pub fn as_slice(&self) -> &[Thread]
        ensures { result.now ≡ self.now }
    {
        &self.threads[self.gone..]
    }

    pub fn get(&self, place: usize) -> &Thread
        requires { place < length self.now }
        ensures { result.now ≡ slice_index_or self.now place result.now }
    {
        &self.threads[self.gone + place]
    }

    pub fn get_mut(&mut self, place: usize) -> &mut Thread
        requires { place < length self.old }
        ensures* writes_back { sem 𝓛 (lends_thread self.entry place result) }
        ensures value { result.now ≡ slice_index_or self.old place result.now }
    {
        &mut self.threads[self.gone + place]
    }

    pub fn push(&mut self, thread: Thread) -> Result<(), AllocError>
        ensures ok { OnOk result (self.new ≡ self.old ++ thread ∷ []) }
        ensures err { OnErr result (self.new ≡ self.old) }
    {
        self.threads.push(thread)?;
        Ok(())
    }

    /// Adds all threads of a vector.
    pub fn append(&mut self, mut more: Vec<Thread>) -> Result<(), AllocError>
        ensures { OnOk result (self.new ≡ self.old ++ more.items) }
    {
        self.threads.append(&mut more)
    }

    /// Takes out the thread at a place. Those between it and the nearer end are moved.
    pub fn remove(&mut self, alloc: Global, place: usize)
        requires { place < length self.old }
        ensures { self.new ≡ remove self.old place }
    {
        if place > self.as_slice().len() / 2 {
            let _thread = self.threads.remove(self.gone + place);
            return;
        }
        self.let_go(alloc, place);
        self.tidy();
    }

    /// Takes out the thread at a place. Those before it are moved.
    fn let_go(&mut self, alloc: Global, place: usize)
        requires { place < length self.old }
        ensures { self.new ≡ remove self.old place }
    {
        put_first(&mut self.threads[self.gone..], place);
        self.threads[self.gone].frames = Stack::new(alloc);
        self.gone += 1;
    }

    /// Threads that are gone give up their room once they are more than those that are there.
    fn tidy(&mut self)
        ensures { self.new ≡ self.old }
    {
        if self.gone > self.threads.len() / 2 {
            drop_front(&mut self.threads, self.gone);
            self.gone = 0;
        }
    }

    /// Threads without statements are gone. It looks at all.
    pub fn drop_terminated(&mut self)
        ensures { self.new ≡ filter goes_on self.old }
    {
        drop_front(&mut self.threads, self.gone);
        self.gone = 0;
        retain_others(&mut self.threads);
    }

    /// The same under other names. They keep their numbers.
    pub fn renamed(&self, alloc: Global, by: &Renaming) -> Result<ThreadList, AllocError>
        ensures { IfOk result (λ after. after ≡ map (renamed_thread (renaming_of by.now)) self.now) }
    {
        Ok(ThreadList {
            threads: renamed_threads(alloc, by, self.as_slice())?,
            gone: 0,
        })
    }

    /// Equal threads of its own.
    pub fn copied(&self, alloc: Global) -> Result<ThreadList, AllocError>
        ensures { IfOk result (λ copy. copy ≡ self.now) }
    {
        Ok(ThreadList {
            threads: copies_of(alloc, self.as_slice())?,
            gone: 0,
        })
    }
}

/// The thread at a place comes to the front, and those before it move on by one.
fn put_first(threads: &mut [Thread], place: usize)
    requires { place < length threads.old }
    ensures rest { drop 1 threads.new ≡ remove threads.old place }
    ensures length { length threads.new ≡ length threads.old }
{
    threads[..place + 1].rotate_right(1);
}

fn drop_front(threads: &mut Vec<Thread>, count: usize)
    requires { count ≤ length threads.old.items }
    ensures { threads.new.items ≡ drop count threads.old.items }
{
    drop(threads.drain(..count));
}

fn retain_others(threads: &mut Vec<Thread>)
    ensures { threads.new.items ≡ filter goes_on threads.old.items }
{
    threads.retain(|thread| !is_terminated(thread));
}

fn renamed_threads(
    alloc: Global,
    by: &Renaming,
    threads: &[Thread],
) -> Result<Vec<Thread>, AllocError>
    ensures { IfOk result (λ after. after.items ≡ map (renamed_thread (renaming_of by.now)) threads.now) }
{
    let mut after = Vec::new(alloc);
    for thread in threads {
        after.push(thread.renamed(alloc, by)?)?;
    }
    Ok(after)
}
