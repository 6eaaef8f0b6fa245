//! Whether a thread is among some others.
ghost use Rattle.std.specs.Prelude.{◌≡◌, [], ◌∷◌, ◌++◌, IfOk, option_copied};
ghost use Rattle.oz_base.specs.declared.names.Ident.{Ident};
ghost use Rattle.oz_semantics.specs.Settling.{is_among};
ghost use Rattle.oz_threads.specs.Members.{is_member};

use oz_base::{Copies, Ident, same_ident};
use std::alloc::{AllocError, Global};
use std::collections::{HashSet, VecDeque};

/// So many threads are looked through one by one. For more, a set is made.
const FEW: usize = 8;

/// Some threads, among which a thread is looked for.
#[derive(Drop)]
pub enum Members<'a> {
    Few(&'a [Ident]),
    FewQueued(&'a VecDeque<Ident>),
    Many(HashSet<Ident>),
}

impl<'a> Members<'a> {
    /// The threads of a list. Only for more than a few it takes memory.
    pub fn of_list(alloc: Global, ids: &'a [Ident]) -> Result<Members<'a>, AllocError>
        ensures { IfOk result (λ members. (id : Ident) → is_member members id ≡ is_among ids.now id) }
    {
        if ids.len() <= FEW {
            return Ok(Members::Few(ids));
        }
        Ok(Members::Many(set_of_list(alloc, ids)?))
    }

    /// The threads of a queue.
    pub fn of_queue(alloc: Global, ids: &'a VecDeque<Ident>) -> Result<Members<'a>, AllocError>
        ensures { IfOk result (λ members. (id : Ident) → is_member members id ≡ is_among ids.now.items id) }
    {
        if ids.len() <= FEW {
            return Ok(Members::FewQueued(ids));
        }
        Ok(Members::Many(set_of_queue(alloc, ids)?))
    }

    pub fn contains(&self, id: &Ident) -> bool
        ensures { result ≡ is_member self.now id.now }
    {
        match self {
            Members::Few(ids) => is_listed(ids, id),
            Members::FewQueued(ids) => is_queued(ids, id),
            Members::Many(ids) => ids.contains(id),
        }
    }
}

fn is_listed(ids: &[Ident], id: &Ident) -> bool
    ensures { result ≡ is_among ids.now id.now }
{
    ids.iter().any(|other| same_ident(id, other))
}

fn is_queued(ids: &VecDeque<Ident>, id: &Ident) -> bool
    ensures { result ≡ is_among ids.now.items id.now }
{
    ids.iter().any(|other| same_ident(id, other))
}

fn set_of_list(alloc: Global, ids: &[Ident]) -> Result<HashSet<Ident>, AllocError>
    ensures { IfOk result (λ set. (id : Ident) → is_among set.keys id ≡ is_among ids.now id) }
{
    let mut set = HashSet::new(alloc);
    for id in ids {
        set.insert(id.copied(alloc)?)?;
    }
    Ok(set)
}

fn set_of_queue(alloc: Global, ids: &VecDeque<Ident>) -> Result<HashSet<Ident>, AllocError>
    ensures { IfOk result (λ set. (id : Ident) → is_among set.keys id ≡ is_among ids.now.items id) }
{
    let mut set = HashSet::new(alloc);
    for id in ids.iter() {
        set.insert(id.copied(alloc)?)?;
    }
    Ok(set)
}
