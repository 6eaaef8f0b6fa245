//! Many workers, each in a thread of its own.
ghost use Rattle.std.specs.Prelude.{◌≡◌, ◌+◌, ◌-◌, ◌<◌, ◌≤◌, Some, None};
ghost use Rattle.node_pool.specs.Workers.{IsOf, claim};
ghost use Rattle.node_pool.specs.Calls.{Joined};
ghost use Rattle.search_crew.specs.Crews.{IsOver, IsFor, IsReady, HasExplored, StandsFrom};

use crate::crossing::board_crosses;
use crate::explore::explore;
use node_pool::{SearchKind, SharedPool, Worker};
use oz_outside::Gate;
use recompute::{Board, Source, Start};
use std::alloc::Global;
use std::sync::{Mutex, Wait};
use std::thread;
use std::thread::Threads;

/// One worker for the numbers of both, of which the first has explored until the search was over: what it is of both.
fn joined<R: Wait, T: Source>(
    rt: &R,
    pool: &SharedPool<T>,
    first: Worker<T>,
    second: Worker<T>,
) -> Worker<T>
    requires pools { IsOf first pool.now × IsOf second pool.now }
    requires over { IsOver T.Kind.search first.seen }
    ensures pool { IsOf result pool.now }
    ensures joined { Joined first second result }
    ensures over { IsOver T.Kind.search result.seen }
{
    pool.join(rt, first, second)
}

/// So many workers explore the tree, of which this is the first, until the search is over. Their numbers follow on those
/// that were drawn before. They share the board. The one that is left stands for all.
pub fn explore_together<
    R: Threads + Wait + Sync,
    G: Gate,
    T: Source + Send + Sync,
    S: Start<T> + Send + Sync,
>(
    rt: &R,
    alloc: Global,
    pool: &SharedPool<T>,
    worker: Worker<T>,
    board: &Mutex<Board<T, S>>,
    source: &T,
    drawn: u32,
    count: u32,
    gate: &G,
) -> Worker<T>
where
    T::Kind: Send + Sync,
    <T::Kind as SearchKind>::Branch: Send + Sync,
    <T::Kind as SearchKind>::Leaf: Send + Sync,
    <T::Kind as SearchKind>::SoFar: Send + Sync,
    requires start { source.now ≡ S.start }
    requires tree { IsFor source.now (T.origin source.now).budget pool.now }
    requires ready { IsReady pool.now worker }
    requires draws { worker.drawn ≡ Some drawn }
    requires count { (1 ≤ count) × (drawn + count < 4294967295) }
    ensures pool { IsOf result pool.now }
    ensures stands { StandsFrom drawn (drawn + count - 1) worker result }
    ensures over { IsOver T.Kind.search result.seen }
{
    if count == 1 {
        return explore(rt, alloc, pool, worker, board, source, drawn, gate);
    }
    board_crosses::<T, S>();
    let (first, second) = pool.enrol(rt, worker);
    let others = count - 1;
    let (first, second) = thread::join(
        rt,
        move || -> Worker<T>
            requires start { source.now ≡ S.start }
            requires tree { IsFor source.now (T.origin source.now).budget pool.now }
            requires ready { IsReady pool.now first }
            requires draws { first.drawn ≡ Some (drawn + 1) }
            requires count { (1 ≤ others) × (drawn + 1 + others < 4294967295) }
            ensures pool { IsOf result pool.entry.now }
            ensures stands { StandsFrom (drawn + 1) (drawn + 1 + others - 1) first result }
            ensures over { IsOver T.Kind.search result.seen }
        {
            explore_together(
                rt,
                alloc,
                pool,
                first,
                board,
                source,
                drawn + 1,
                others,
                gate,
            )
        },
        move || -> Worker<T>
            requires start { source.now ≡ S.start }
            requires tree { IsFor source.now (T.origin source.now).budget pool.now }
            requires ready { IsReady pool.now second }
            ensures { HasExplored T.Kind.search pool.entry.now second result }
        { explore(rt, alloc, pool, second, board, source, drawn, gate) },
    );
    joined(rt, pool, first, second)
}
