//! The queue of the threads that can step.
ghost use Rattle.std.specs.Prelude.{◌≡◌, List, [], ◌∷◌, ◌++◌, filter, length, option_to_list, IfOk, OnOk, OnErr, MatchOption, option_copied};
ghost use Rattle.std.specs.List.{list_any};
ghost use Rattle.oz_base.specs.Lists.{first};
ghost use Rattle.oz_base.specs.declared.names.Ident.{Ident};
ghost use Rattle.oz_semantics.specs.Names.{is_below};
ghost use Rattle.oz_semantics.specs.Settling.{is_among, mover_in, queue_after};
ghost use Rattle.oz_threads.specs.Members.{is_member, is_mover, joins};

use crate::members::Members;
use oz_base::{Copies, Ident, SpaceName, same_ident};
use std::alloc::{AllocError, Global};
use std::collections::VecDeque;
use std::marker::Model;

/// The threads that can step, in the order in which they will. Contracts see the list of their names, the head first.
#[derive(Drop)]
pub struct Queue {
    ids: VecDeque<Ident>,
}

impl Model for Queue {
    ghost use Rattle.std.specs.Prelude.{List};
    ghost use Rattle.oz_base.specs.declared.names.Ident.{Ident};

    ghost Value = { List Ident };

    ghost view = { λ q. q.ids.items };
}

impl Queue {
    /// A queue of no threads. It takes no memory.
    pub fn new(alloc: Global) -> Queue
        ensures { result ≡ [] }
    {
        Queue {
            ids: VecDeque::new(alloc),
        }
    }

    /// How many threads it holds.
    pub fn len(&self) -> usize
        ensures { result ≡ length self.now }
    {
        self.ids.len()
    }

    /// The head.
    pub fn first(&self) -> Option<&Ident>
        ensures { option_copied result ≡ first self.now }
    {
        self.ids.front()
    }

    /// Takes the head out. It takes no memory.
    pub fn next(&mut self) -> Option<Ident>
        ensures { MatchOption result ((self.old ≡ []) × (self.new ≡ [])) (λ id. self.old ≡ id ∷ self.new) }
    {
        self.ids.pop_front()
    }

    /// Puts a thread at the end.
    pub fn push(&mut self, id: Ident) -> Result<(), AllocError>
        ensures ok { OnOk result (self.new ≡ self.old ++ id ∷ []) }
        ensures err { OnErr result (self.new ≡ self.old) }
    {
        self.ids.push_back(id)?;
        Ok(())
    }

    /// Puts a thread, if there is one, and then another, if there is one, at the end.
    pub fn push_both(
        &mut self,
        alloc: Global,
        one: Option<Ident>,
        other: Option<Ident>,
    ) -> Result<(), AllocError>
        ensures ok { OnOk result (self.new ≡ (self.old ++ option_to_list one) ++ option_to_list other) }
        ensures err { OnErr result (self.new ≡ self.old) }
    {
        let mut others = VecDeque::new(alloc);
        if let Some(other) = other {
            others.push_back(other)?;
        }
        join(&mut self.ids, one, others)
    }

    /// Whether a thread of the space or of a space below it can step.
    pub fn any_below(&self, space: &SpaceName) -> bool
        ensures { result ≡ list_any (λ id. is_below space.now id.space) self.now }
    {
        self.ids.iter().any(|id| space.is_above(&id.space))
    }

    /// After a step: of the threads that it holds those stay which can step, then the thread that stepped joins the end if it can step
    /// again, and then all others that can. These are the threads of the list. It takes a few look-ups for each of them; for a few
    /// threads no memory but for the queue itself, for more that of two sets of them.
    pub fn requeue(
        &mut self,
        alloc: Global,
        ids: &[Ident],
        mover: Option<&Ident>,
    ) -> Result<(), AllocError>
        ensures ok { OnOk result (self.new ≡ queue_after ids.now (option_copied mover.entry) self.old) }
        ensures err { OnErr result (self.new ≡ self.old) }
    {
        let able = Members::of_list(alloc, ids)?;
        let others = joining(alloc, ids, mover, &self.ids)?;
        let mover = moving(alloc, &able, mover)?;
        join(&mut self.ids, mover, others)?;
        retain(&mut self.ids, &able);
        Ok(())
    }
}

/// The thread that stepped, if it can step again.
fn moving(alloc: Global, able: &Members, mover: Option<&Ident>) -> Result<Option<Ident>, AllocError>
    ensures { (ids : List Ident) → ((id : Ident) → is_member able.now id ≡ is_among ids id) → IfOk result (λ moving. option_to_list moving ≡ mover_in (option_copied mover.entry) ids) }
{
    let Some(mover) = mover else {
        return Ok(None);
    };
    if able.contains(mover) {
        Ok(Some(mover.copied(alloc)?))
    } else {
        Ok(None)
    }
}

fn is_mover(mover: Option<&Ident>, id: &Ident) -> bool
    ensures { result ≡ is_mover (option_copied mover.entry) id.now }
{
    match mover {
        Some(mover) => same_ident(id, mover),
        None => false,
    }
}

fn joins(queued: &Members, mover: Option<&Ident>, id: &Ident) -> bool
    ensures { result ≡ joins (is_member queued.now) (option_copied mover.entry) id.now }
{
    !queued.contains(id) && !is_mover(mover, id)
}

/// Those that can step, and are neither in the queue nor the thread that stepped.
fn joining(
    alloc: Global,
    ids: &[Ident],
    mover: Option<&Ident>,
    queue: &VecDeque<Ident>,
) -> Result<VecDeque<Ident>, AllocError>
    ensures { IfOk result (λ others. others.items ≡ filter (joins (is_among queue.now.items) (option_copied mover.entry)) ids.now) }
{
    let queued = Members::of_queue(alloc, queue)?;
    others_of(alloc, ids, mover, &queued)
}

fn others_of(
    alloc: Global,
    ids: &[Ident],
    mover: Option<&Ident>,
    queued: &Members,
) -> Result<VecDeque<Ident>, AllocError>
    ensures { IfOk result (λ others. others.items ≡ filter (joins (is_member queued.now) (option_copied mover.entry)) ids.now) }
{
    let mut others = VecDeque::new(alloc);
    for id in ids {
        if joins(queued, mover, id) {
            others.push_back(id.copied(alloc)?)?;
        }
    }
    Ok(others)
}

/// Puts a thread, if there is one, and others at the end.
fn join(
    queue: &mut VecDeque<Ident>,
    mover: Option<Ident>,
    mut others: VecDeque<Ident>,
) -> Result<(), AllocError>
    ensures ok { OnOk result (queue.new.items ≡ queue.old.items ++ option_to_list mover ++ others.items) }
    ensures err { OnErr result (queue.new.items ≡ queue.old.items) }
{
    let Some(mover) = mover else {
        return queue.append(&mut others);
    };
    if others.is_empty() {
        queue.push_back(mover)?;
        return Ok(());
    }
    others.push_front(mover)?;
    queue.append(&mut others)
}

/// Those stay that can step.
fn retain(queue: &mut VecDeque<Ident>, able: &Members)
    ensures { queue.new.items ≡ filter (is_member able.now) queue.old.items }
{
    queue.retain(|id| able.contains(id));
}

impl Copies for Queue {
    /// It takes the time and memory of the number of threads.
    fn copied(&self, alloc: Global) -> Result<Self, AllocError> {
        let mut ids = VecDeque::new(alloc);
        for id in self.ids.iter() {
            ids.push_back(id.copied(alloc)?)?;
        }
        Ok(Queue { ids })
    }
}
