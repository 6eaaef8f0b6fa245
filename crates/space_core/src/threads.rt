//! The threads of one space.
ghost use Rattle.std.specs.Prelude.{◌≡◌, ◌≢◌, ◌<◌, ◌≤◌, ◌+◌, ◌-◌, ◌++◌, ℕ, true, List, [], drop, length, map, filter, slice_index_or, IfOk, OnOk, OnErr, MatchOption, option_copied};
ghost use Rattle.oz_base.specs.Lists.{first};
ghost use Rattle.std.specs.List.{range_with_len};
ghost use Rattle.oz_semantics.specs.Names.{named};
ghost use Rattle.oz_semantics.specs.Configurations.{is_numbered, thread_at, frames_in};
ghost use Rattle.oz_semantics.specs.declared.configuration.Thread.{Thread};
ghost use Rattle.oz_semantics.specs.Renamings.{renamed_thread};
ghost use Rattle.renamed_terms.specs.Meanings.{renaming_of};
ghost use Rattle.space_core.specs.Merging.{raised_by, with_joined};
ghost use Rattle.space_core.specs.Levels.{replacing};
ghost use Rattle.space_core.specs.Places.{IsAbsent, IsFirst};
ghost use Rattle.space_core.specs.Stacks.{IsLanding, cut_out, declared_on};
ghost use Rattle.space_core.specs.Threads.{goes_on, with_stack, with_new, without_ended, IsPopped};

use crate::declarations::declare;
use crate::ended::{Ended, is_terminated};
use crate::stacks::{Landing, nearest_mark};
use crate::thread_list::ThreadList;
use oz_base::{Copies, Ident, SpaceName, Stack};
use oz_language::Identifier;
use oz_semantics::{Frame, Thread};
use renamed_terms::Renamed;
use renamings::Renaming;
use std::alloc::{AllocError, Global};
use std::marker::Model;
use std::mem;

/// The threads of a space, in the order of their numbers. Contracts see the list of them, and the number that the next one gets.
#[derive(Drop)]
pub struct Threads {
    threads: ThreadList,
    next: u64,
    /// Which threads may have no statements left.
    ended: Ended,
}

impl Model for Threads {
    ghost use Rattle.std.specs.Coded.{codes};
    ghost use Rattle.environments.specs.contracts.environment.Environment as environment;
    ghost use Rattle.space_core.specs.Threads.{Running, IsKept};

    ghost Value = { Running };

    ghost coded = { Prim.hlevel (codes, environment.the_row.coded) };

    ghost view = { λ t. record { list = t.threads; next = t.next } };

    ghost invariant = { λ t. IsKept t.threads t.next t.ended };
}

impl Threads {
    /// None, of which the first gets the number 1.
    pub fn new(alloc: Global) -> Threads
        ensures { result ≡ record { list = []; next = 1 } }
    {
        Threads {
            threads: ThreadList::new(alloc),
            next: 1,
            ended: Ended::Nobody,
        }
    }

    pub fn as_slice(&self) -> &[Thread]
        ensures { result.now ≡ self.now.list }
    {
        self.threads.as_slice()
    }

    /// The number that the next thread gets.
    pub fn next(&self) -> u64
        ensures { result ≡ self.now.next }
    {
        self.next
    }

    /// The place of a thread. The first one is found at once.
    #[inline(always)]
    fn place(&self, number: u64) -> Option<usize>
        ensures { MatchOption result (IsAbsent (is_numbered number) self.now.list)
            (λ place. (t : Thread) × IsFirst (is_numbered number) self.now.list place t) }
    {
        let threads = self.threads.as_slice();
        if is_at(threads, number, 0) {
            return Some(0);
        }
        self.later_place(number)
    }

    /// The same. One that stands where it would if none between it and the first or the last thread had ended is found at once. For
    /// another one it takes time logarithmic in the number of threads.
    #[inline(never)]
    fn later_place(&self, number: u64) -> Option<usize>
        ensures { MatchOption result (IsAbsent (is_numbered number) self.now.list)
            (λ place. (t : Thread) × IsFirst (is_numbered number) self.now.list place t) }
    {
        let threads = self.threads.as_slice();
        let guess = from_first(threads, number);
        if is_at(threads, number, guess) {
            return Some(guess);
        }
        let guess = from_last(threads, number);
        if is_at(threads, number, guess) {
            return Some(guess);
        }
        threads
            .binary_search_by_key(&number, |thread| thread.number)
            .ok()
    }

    /// The statement on top of a thread's stack.
    pub fn top_frame(&self, number: u64) -> Option<&Frame>
        ensures { option_copied result ≡ first (frames_in (thread_at self.now.list number)) }
    {
        let place = self.place(number)?;
        self.threads.get(place).frames.top()
    }

    /// Takes the statement off the top of the stack of the thread at a place.
    #[inline(always)]
    fn pop_at(&mut self, place: usize) -> Option<Frame>
        requires { place < length self.old.list }
        ensures { IsPopped place self.old self.new result }
    {
        let frame = self.threads.get_mut(place).frames.pop();
        self.ended = self.ended.with_seen(self.threads.get(place));
        frame
    }

    /// Takes the statement off the top of a thread's stack.
    pub fn pop(&mut self, number: u64) -> Option<Frame>
        ensures frame { result ≡ first (frames_in (thread_at self.old.list number)) }
        ensures popped { self.new ≡ with_stack number (λ stack. drop 1 stack) self.old }
    {
        let place = self.place(number)?;
        self.pop_at(place)
    }

    /// Puts statements on top of a thread's stack, the first of them uppermost.
    pub fn push(&mut self, number: u64, frames: Vec<Frame>) -> Result<(), AllocError>
        ensures ok { OnOk result (self.new ≡ with_stack number (λ stack. frames.items ++ stack) self.old) }
        ensures err { OnErr result (self.new ≡ self.old) }
    {
        let Some(place) = self.place(number) else {
            return Ok(());
        };
        self.threads.get_mut(place).frames.push_all(frames)
    }

    /// Puts statements in the place of the one on top of a thread's stack.
    pub fn replace_top(&mut self, number: u64, frames: Vec<Frame>) -> Result<(), AllocError>
        ensures ok { OnOk result (self.new ≡ with_stack number (replacing frames.items) self.old) }
        ensures err { OnErr result (self.new ≡ self.old) }
    {
        let Some(place) = self.place(number) else {
            return Ok(());
        };
        self.threads.get_mut(place).frames.replace_top(frames)?;
        self.ended = self.ended.with_seen(self.threads.get(place));
        Ok(())
    }

    /// The statement on top of a thread's stack gives way to a body, in which the identifiers stand for as many variables of the space,
    /// from this number on.
    pub fn declare_in(
        &mut self,
        alloc: Global,
        number: u64,
        names: &[Identifier],
        space: &SpaceName,
        from: u64,
        body: &[u32],
    ) -> Result<(), AllocError>
        ensures ok { OnOk result (self.new ≡ with_stack number (declared_on names.now (map (named space.now) (range_with_len from (length names.now))) body.now) self.old) }
        ensures err { OnErr result (self.new ≡ self.old) }
    {
        let Some(place) = self.place(number) else {
            return Ok(());
        };
        let stack = &mut self.threads.get_mut(place).frames;
        declare(alloc, stack, names, space, from, body)?;
        self.ended = self.ended.with_seen(self.threads.get(place));
        Ok(())
    }

    /// Takes all statements off a thread's stack.
    pub fn clear(&mut self, number: u64)
        ensures { self.new ≡ with_stack number (λ stack. []) self.old }
    {
        let Some(place) = self.place(number) else {
            return;
        };
        self.threads.get_mut(place).frames.clear();
        self.ended = self.ended.with_seen(self.threads.get(place));
    }

    /// Takes so many statements off a thread's stack that stand below the uppermost ones.
    pub fn cut(&mut self, number: u64, uppermost: usize, count: usize)
        requires { uppermost + count ≤ length (frames_in (thread_at self.old.list number)) }
        ensures { self.new ≡ with_stack number (cut_out uppermost count) self.old }
    {
        let Some(place) = self.place(number) else {
            return;
        };
        self.threads.get_mut(place).frames.cut(uppermost, count);
        self.ended = self.ended.with_seen(self.threads.get(place));
    }

    /// Threads without statements are gone. It looks at all threads only where several may have ended.
    pub fn drop_terminated(&mut self, alloc: Global)
        ensures { self.new ≡ without_ended self.old }
    {
        match self.ended {
            Ended::Nobody => {}
            Ended::AtMost(number) => {
                let Some(place) = self.place(number) else {
                    self.ended = Ended::Nobody;
                    return;
                };
                drop_at(alloc, &mut self.threads, place);
                self.ended = Ended::Nobody;
            }
            Ended::Several => {
                self.threads.drop_terminated();
                self.ended = Ended::Nobody;
            }
        }
    }

    /// A new thread with these statements, the first of them uppermost. It refuses for want of memory, or where there were 2^64 - 1
    /// threads.
    pub fn spawn(&mut self, alloc: Global, frames: Vec<Frame>) -> Result<(), AllocError>
        ensures ok { OnOk result (self.new ≡ with_new frames.items self.old) }
        ensures err { OnErr result (self.new ≡ self.old) }
    {
        let next = self.next.checked_add(1).ok_or(AllocError)?;
        let thread = new_thread(alloc, self.next, frames)?;
        let ended = self.ended.with_seen(&thread);
        self.threads.push(thread)?;
        self.next = next;
        self.ended = ended;
        Ok(())
    }

    /// The statement on top of a thread's stack is taken off, and a new thread begins with these.
    pub fn start(
        &mut self,
        alloc: Global,
        number: u64,
        frames: Vec<Frame>,
    ) -> Result<(), AllocError>
        ensures ok { OnOk result (self.new ≡ with_new frames.items (with_stack number (λ stack. drop 1 stack) self.old)) }
        ensures err { OnErr result (self.new ≡ self.old) }
    {
        let Some(place) = self.place(number) else {
            return self.spawn(alloc, frames);
        };
        self.spawn(alloc, frames)?;
        let _statement = self.pop_at(place);
        Ok(())
    }

    /// No thread is left. The number that the next one gets is kept.
    pub fn stop_all(&mut self, alloc: Global)
        ensures { self.new ≡ record self.old { list = [] } }
    {
        self.threads = ThreadList::new(alloc);
        self.ended = Ended::Nobody;
    }

    /// Where an exception of the statement on top of a thread's stack goes, if there is a mark below it.
    pub fn landing_of(
        &self,
        alloc: Global,
        number: u64,
        exception: &Ident,
    ) -> Result<Option<Landing>, AllocError>
        ensures { IfOk result (IsLanding exception.now (frames_in (thread_at self.now.list number))) }
    {
        let Some(place) = self.place(number) else {
            return Ok(None);
        };
        nearest_mark(alloc, &self.threads.get(place).frames, exception)
    }
}

impl Threads {
    /// The same under other names. They keep their numbers.
    pub fn renamed(&self, alloc: Global, by: &Renaming) -> Result<Threads, AllocError>
        ensures { IfOk result (λ after. after ≡ record self.now { list = map (renamed_thread (renaming_of by.now)) self.now.list }) }
    {
        Ok(Threads {
            threads: self.threads.renamed(alloc, by)?,
            next: self.next,
            ended: self.ended,
        })
    }

    /// The threads of another space come to these, under other names and with numbers behind those that were given out. It refuses for
    /// want of memory, and numbers above 2^64 - 1: then no thread may be left.
    pub fn join(&mut self, alloc: Global, by: &Renaming, other: &Threads) -> Result<(), AllocError>
        ensures { OnOk result (self.new ≡ with_joined (renaming_of by.now) other.now self.old) }
    {
        let raise = one_before(self.next)?;
        let next = sum(self.next, one_before(other.next)?)?;
        let more = raised_all(alloc, by, other.as_slice(), raise)?;
        let mut threads = mem::replace(&mut self.threads, ThreadList::new(alloc));
        threads.append(more)?;
        self.threads = threads;
        self.next = next;
        self.ended = self.ended.with_other(other.ended);
        Ok(())
    }
}

impl Copies for Threads {
    fn copied(&self, alloc: Global) -> Result<Self, AllocError> {
        Ok(Threads {
            threads: self.threads.copied(alloc)?,
            next: self.next,
            ended: self.ended,
        })
    }
}

/// Where a thread stands if none between the first one and it has ended. It need not stand there.
fn from_first(threads: &[Thread], number: u64) -> usize {
    match threads {
        [] => 0,
        [first, ..] => number.saturating_sub(first.number) as usize,
    }
}

/// Where a thread stands if none between it and the last one has ended. It need not stand there.
fn from_last(threads: &[Thread], number: u64) -> usize {
    match threads.last() {
        None => 0,
        Some(last) => {
            let behind = last.number.saturating_sub(number) as usize;
            (threads.len() - 1).saturating_sub(behind)
        }
    }
}

/// Whether a thread stands at a place.
fn is_at(threads: &[Thread], number: u64, place: usize) -> bool
    ensures { result ≡ true → (place < length threads.now) × ((t : Thread) → (slice_index_or threads.now place t).number ≡ number) }
{
    match threads.get(place) {
        Some(thread) => thread.number == number,
        None => false,
    }
}

/// The thread at a place is gone where it has no statements.
fn drop_at(alloc: Global, threads: &mut ThreadList, place: usize)
    requires { place < length threads.old }
    ensures { ((i : ℕ) (t : Thread) → i ≢ place → i < length threads.old → goes_on (slice_index_or threads.old i t) ≡ true) → threads.new ≡ filter goes_on threads.old }
{
    if is_terminated(threads.get(place)) {
        threads.remove(alloc, place);
    }
}

fn new_thread(alloc: Global, number: u64, frames: Vec<Frame>) -> Result<Thread, AllocError>
    ensures { IfOk result (λ thread. thread ≡ record { number = number; frames = frames.items }) }
{
    let mut stack = Stack::new(alloc);
    stack.push_all(frames)?;
    Ok(Thread {
        number,
        frames: stack,
    })
}

/// The number before one.
fn one_before(number: u64) -> Result<u64, AllocError>
    ensures { IfOk result (λ before. before ≡ number - 1) }
{
    if number == 0 {
        return Err(AllocError);
    }
    Ok(number - 1)
}

fn sum(number: u64, more: u64) -> Result<u64, AllocError>
    ensures { IfOk result (λ sum. sum ≡ number + more) }
{
    match number.checked_add(more) {
        Some(sum) => Ok(sum),
        None => Err(AllocError),
    }
}

/// A thread under other names and with a greater number.
fn raised(alloc: Global, by: &Renaming, thread: &Thread, raise: u64) -> Result<Thread, AllocError>
    ensures { IfOk result (λ after. after ≡ raised_by raise (renamed_thread (renaming_of by.now) thread.now)) }
{
    Ok(Thread {
        number: sum(thread.number, raise)?,
        frames: thread.frames.renamed(alloc, by)?,
    })
}

/// Threads under other names and with greater numbers.
fn raised_all(
    alloc: Global,
    by: &Renaming,
    threads: &[Thread],
    raise: u64,
) -> Result<Vec<Thread>, AllocError>
    ensures { IfOk result (λ after. after.items ≡ map (raised_by raise) (map (renamed_thread (renaming_of by.now)) threads.now)) }
{
    let mut after = Vec::new(alloc);
    for thread in threads {
        after.push(raised(alloc, by, thread, raise)?)?;
    }
    Ok(after)
}
