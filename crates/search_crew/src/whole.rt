//! A whole search, by so many workers.
ghost use Rattle.std.specs.Prelude.{◌≡◌, ◌≤◌, ◌<◌, List, IfOk, Contains};
ghost use Rattle.oz_search.specs.declared.history.Entry.{Entry};
ghost use Rattle.oz_search.specs.Histories.{IsLegal, worker_of};
ghost use Rattle.oz_search.specs.Leaves.{Names, leaves_of};
ghost use Rattle.search_law.specs.Law.{HoldsTree, StopsRightly};
ghost use Rattle.search_crew.specs.Crews.{IsOver};

use crate::crew::explore_together;
use node_pool::{Ended, SearchKind, SharedPool};
use oz_outside::Gate;
use recompute::{Board, Source, Start};
use std::alloc::{AllocError, Global};
use std::sync::{Mutex, Wait};
use std::thread::Threads;

/// The history of a search at its end, and where its leaves stand. So many workers, from 1 to 64, explore the tree of the source,
/// each node with as many steps as there are for the search, until nothing is open and nothing out, or one of them has stopped: for
/// want of memory, or of steps. It is refused where memory is refused before they begin.
///
/// The gate is called round the solving of each node, with the number of the worker, from 1. Of a type, `Start` says where this search
/// starts: a caller passes `Brand`, and picks it.
pub fn explored<
    R: Threads + Wait + Sync,
    G: Gate,
    T: Source + Send + Sync,
    S: Start<T> + Send + Sync,
>(rt: &R, alloc: Global, source: &T, workers: u32, gate: &G) -> Result<Ended<T::Kind>, AllocError>
where
    T::Kind: Send + Sync,
    <T::Kind as SearchKind>::Branch: Send + Sync,
    <T::Kind as SearchKind>::Leaf: Send + Sync,
    <T::Kind as SearchKind>::SoFar: Send + Sync,
    requires start { source.now ≡ S.start }
    requires workers { (1 ≤ workers) × (workers ≤ 64) }
    ensures over { IfOk result (λ ended. IsOver T.Kind.search ended.entries.items) }
    ensures legal { IfOk result (λ ended. IsLegal (T.within source.now) T.Kind.search (T.origin source.now).budget ended.entries.items) }
    ensures among { IfOk result (λ ended. (e : Entry (List T.Kind.Branch) T.Kind.Leaf) → Contains ended.entries.items e → worker_of e < workers) }
    ensures places { IfOk result (λ ended. Names T.Kind.search ended.entries.items ended.leaves.entries (leaves_of T.Kind.search ended.entries.items)) }
    ensures finished { IfOk result (λ ended. HoldsTree T.Kind.search (T.Kind.takes ended.entries.items) (T.within source.now (T.origin source.now).budget) (T.origin source.now).budget ended.entries.items) }
    ensures spent { IfOk result (λ ended. StopsRightly T.Kind.search (T.Kind.takes ended.entries.items) (T.within source.now (T.origin source.now).budget) (T.origin source.now).budget ended.entries.items) }
{
    let tag = source.copy(alloc)?;
    let (pool, worker) = SharedPool::new(alloc, tag, source.frozen().budget())?;
    let board: Mutex<Board<T, S>> = Mutex::new(Board::new(alloc));
    let worker = explore_together(rt, alloc, &pool, worker, &board, source, 1, workers, gate);
    Ok(pool.close(worker))
}
