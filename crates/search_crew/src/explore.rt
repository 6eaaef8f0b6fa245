//! What one worker does.
ghost use Rattle.std.specs.Prelude.{◌≡◌, ◌≤◌, ◌^◌, Some, None, IfOk};
ghost use Rattle.oz_search.specs.Nodes.{IsNodeAt};
ghost use Rattle.oz_search.specs.declared.history.StopCause.TheVariants.{Memory, Fuel};
ghost use Rattle.recompute.specs.Origins.{met_by};
ghost use Rattle.recompute.specs.Ways.{answer_of};
ghost use Rattle.node_pool.specs.Calls.{StopTurn};
ghost use Rattle.node_pool.specs.Workers.{IsOf, claim};
ghost use Rattle.search_crew.specs.Crews.{IsFor, IsReady, IsSame, HasExplored, IsTold, GoesOn, StopsWhere};

use crate::patience::Patience;
use node_pool::{Claimed, Path, SearchKind, Settled, SharedPool, Worker};
use oz_outside::Gate;
use oz_search::{Kind, Report, StopCause};
use recompute::{Board, Explorer, Found, Solved, Source, Start, solve_root};
use std::alloc::{AllocError, Global};
use std::sync::{Mutex, Wait};

/// A worker that was told something of the pool.
#[derive(Drop)]
pub enum After<W> {
    /// It may take another node.
    Free(W),
    /// The search is over.
    Over(W),
}

/// A worker is refused memory, and stops the search.
fn give_up<R: Wait, T: Source>(rt: &R, pool: &SharedPool<T>, worker: Worker<T>) -> Worker<T>
    requires { IsOf worker pool.now }
    ensures explored { HasExplored T.Kind.search pool.now worker result }
    ensures cause { StopTurn Memory worker result }
{
    pool.stop(rt, worker, StopCause::Memory)
}

/// The node that the worker has out needs more steps than there are for the search.
fn run_out<R: Wait, T: Source>(
    rt: &R,
    pool: &SharedPool<T>,
    worker: Worker<T>,
    path: &Path<T::Kind>,
) -> Worker<T>
    requires pool { IsOf worker pool.now }
    requires out { claim worker ≡ Some path.now }
    requires none { T.within pool.now.tag pool.now.budget path.now ≡ None }
    ensures explored { HasExplored T.Kind.search pool.now worker result }
    ensures cause { StopTurn Fuel worker result }
{
    let _path = path;
    pool.stop(rt, worker, StopCause::Fuel)
}

/// Says what the node is that the worker has out. No text has a choice without alternatives, and the pool has no entry for one.
fn tell<R: Wait, T: Source>(
    rt: &R,
    pool: &SharedPool<T>,
    worker: Worker<T>,
    path: Path<T::Kind>,
    report: Report<<T::Kind as SearchKind>::Leaf>,
) -> (Worker<T>, Result<Settled, AllocError>)
    requires pool { IsOf worker pool.now }
    requires out { claim worker ≡ Some path }
    requires steps { (1 ≤ report.steps) × (report.steps ≤ 2 ^ 48) }
    requires node { IsNodeAt (T.within pool.now.tag) path report }
    ensures pool { IsOf result.0 pool.now }
    ensures same { IsSame worker result.0 }
    ensures told { IsTold T.Kind.search result.0 result.1 }
{
    let Report { kind, steps } = report;
    match kind {
        Kind::End(leaf) => pool.leaf(rt, worker, path, leaf, steps),
        Kind::Alternatives(count) => {
            if count == 0 {
                return (worker, Err(AllocError));
            }
            pool.split(rt, worker, path, count, steps)
        }
    }
}

/// Settles a node that the worker has out.
fn settle<R: Wait, T: Source>(
    rt: &R,
    pool: &SharedPool<T>,
    worker: Worker<T>,
    path: Path<T::Kind>,
    report: Report<<T::Kind as SearchKind>::Leaf>,
) -> After<Worker<T>>
    requires pool { IsOf worker pool.now }
    requires out { claim worker ≡ Some path }
    requires steps { (1 ≤ report.steps) × (report.steps ≤ 2 ^ 48) }
    requires node { IsNodeAt (T.within pool.now.tag) path report }
    ensures { GoesOn T.Kind.search pool.now worker result }
{
    let (told, answer) = tell(rt, pool, worker, path, report);
    match answer {
        Ok(Settled::Done) => After::Free(told),
        Ok(Settled::Spent(_)) => After::Over(told),
        Ok(Settled::Stopped(_)) => After::Over(told),
        Err(_) => After::Over(give_up(rt, pool, told)),
    }
}

/// Settles the node that the worker has out by what there is at its path.
fn close_claim<R: Wait, T: Source>(
    rt: &R,
    pool: &SharedPool<T>,
    worker: Worker<T>,
    path: Path<T::Kind>,
    solved: Result<Solved<<T::Kind as SearchKind>::Leaf>, AllocError>,
) -> After<Worker<T>>
    requires small { pool.now.budget ≤ 2 ^ 48 }
    requires pool { IsOf worker pool.now }
    requires out { claim worker ≡ Some path }
    requires solved { IfOk solved (λ s. s ≡ answer_of (met_by T.Kind.search (T.maker pool.now.tag) (T.origin pool.now.tag) pool.now.budget path)) }
    ensures on { GoesOn T.Kind.search pool.now worker result }
    ensures stops { StopsWhere solved worker result }
{
    match solved {
        Ok(Solved::Node(report)) => settle(rt, pool, worker, path, report),
        Ok(Solved::OutOfFuel { .. }) => After::Over(run_out(rt, pool, worker, &path)),
        Ok(Solved::NotANode { .. }) => After::Over(run_out(rt, pool, worker, &path)),
        Err(_) => After::Over(give_up(rt, pool, worker)),
    }
}

/// What there is at a path, by the way to it from the root.
fn solve_from_root<T: Source, S: Start<T>>(
    alloc: Global,
    source: &T,
    path: &Path<T::Kind>,
) -> Result<Found<T, S>, AllocError>
    ensures { IfOk result (λ found. found.solved ≡ answer_of (met_by T.Kind.search (T.maker source.now) (T.origin source.now) (T.origin source.now).budget path.now)) }
{
    let mut explorer = Explorer::new(alloc, source)?;
    let solved = explorer.solve(alloc, path, source.frozen().budget())?;
    Ok(Found {
        solved,
        choice: None,
    })
}

/// What there is at a path, by the node before it, if the board has that. The board is locked while it is asked, and no longer.
fn solve_near<R: Wait, T: Source, S: Start<T>>(
    rt: &R,
    alloc: Global,
    board: &Mutex<Board<T, S>>,
    source: &T,
    path: &Path<T::Kind>,
) -> Result<Found<T, S>, AllocError>
    requires start { source.now ≡ S.start }
    ensures { IfOk result (λ found. found.solved ≡ answer_of (met_by T.Kind.search (T.maker source.now) (T.origin source.now) (T.origin source.now).budget path.now)) }
{
    let Some((branch, before)) = path.as_slice().split_last() else {
        return solve_root(alloc, source);
    };
    let found = board.lock(rt).take(before)?;
    let Some(choice) = found else {
        return solve_from_root(alloc, source, path);
    };
    choice.solve_child(alloc, source, *branch)
}

/// What there is at a path. A choice is put on the board, before anybody can be told of its alternatives. Where memory is refused
/// for that, whoever takes one goes to it from the root.
fn solve<R: Wait, T: Source, S: Start<T>>(
    rt: &R,
    alloc: Global,
    board: &Mutex<Board<T, S>>,
    source: &T,
    path: &Path<T::Kind>,
) -> Result<Solved<<T::Kind as SearchKind>::Leaf>, AllocError>
    requires start { source.now ≡ S.start }
    ensures { IfOk result (λ solved. solved ≡ answer_of (met_by T.Kind.search (T.maker source.now) (T.origin source.now) (T.origin source.now).budget path.now)) }
{
    let Found { solved, choice } = solve_near(rt, alloc, board, source, path)?;
    if let Some(choice) = choice {
        let _ = board.lock(rt).put(choice);
    }
    Ok(solved)
}

/// Takes nodes and settles them, until the search is over. The gate is called round the solving of each.
pub fn explore<R: Wait, G: Gate, T: Source, S: Start<T>>(
    rt: &R,
    alloc: Global,
    pool: &SharedPool<T>,
    first: Worker<T>,
    board: &Mutex<Board<T, S>>,
    source: &T,
    number: u32,
    gate: &G,
) -> Worker<T>
    requires start { source.now ≡ S.start }
    requires tree { IsFor source.now (T.origin source.now).budget pool.now }
    requires ready { IsReady pool.now first }
    ensures { HasExplored T.Kind.search pool.now first result }
{
    source.frozen().small();
    let mut patience = Patience::new();
    let mut worker = first;
    let mut nth: u64 = 0;
    'nodes: for _ in rt.forever() {
        let (taken, answer) = pool.claim(rt, worker);
        match answer {
            Ok(Claimed::Node(path)) => {
                patience.reset();
                nth = nth.saturating_add(1);
                gate.before(number, nth);
                let solved = solve(rt, alloc, board, source, &path);
                gate.after(number, nth);
                match close_claim(rt, pool, taken, path, solved) {
                    After::Free(free) => worker = free,
                    After::Over(over) => return over,
                }
            }
            Ok(Claimed::Idle) => {
                patience.wait(rt);
                worker = taken;
            }
            Ok(Claimed::Finished) => return taken,
            Ok(Claimed::Stopped(_)) => return taken,
            Err(_) => return give_up(rt, pool, taken),
        }
    }
    unreachable!()
}
