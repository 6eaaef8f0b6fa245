//! Tests of node_pool: two threads share a pool. What the workers of a search find is tested with the whole call.
ghost use Rattle.std.specs.Prelude.{◌≡◌, List, [], ◌∷◌, None, Some};
ghost use Rattle.std.specs.Bool.{OnTrue};
ghost use Rattle.search_law.specs.Example.{small_within};
ghost use Rattle.node_pool.specs.Workers.{IsOf, claim, first_worker};
ghost use Rattle.node_pool.specs.Calls.{claim_left};

use node_pool::{Claimed, Ended, Path, Plain, Settled, SharedPool, Tree, Worker};
use oz_search::{Halt, Outcome, StopCause};
use std::alloc::AllocError;
use std::process::Abort;
use std::sync::Wait;
use std::test::Fail;
use std::thread;
use std::thread::Threads;

/// A root of 1 step with three leaves, of which the second failed. They have 2, 1 and 4 steps.
#[derive(Drop)]
struct Small;

impl Tree for Small {
    type Kind = Plain;

    ghost within = { λ x. small_within };

    #[tactic(auto, using(search_law::proofs::Small::small_tree_law))]
    fn laws(&self) {}
}

fn is_root(path: &Path<Plain>) -> bool
    ensures { OnTrue result (path.now ≡ []) }
{
    path.len() == 0
}

fn is_child(path: &Path<Plain>, alternative: u32) -> bool
    ensures { OnTrue result (path.now ≡ alternative ∷ []) }
{
    path.len() == 1 && path.last() == alternative
}

/// Says what the node is that the worker has out.
#[tactic(auto, using(crate::proofs::SmallNodes::small_root, crate::proofs::SmallNodes::small_first, crate::proofs::SmallNodes::small_second, crate::proofs::SmallNodes::small_third))]
fn settle<R: Wait>(
    rt: &R,
    pool: &SharedPool<Small>,
    worker: Worker<Small>,
    path: Path<Plain>,
) -> (Worker<Small>, Result<Settled, AllocError>)
    requires pool { IsOf worker pool.now }
    requires out { claim worker ≡ Some path }
    ensures pool { IsOf result.0 pool.now }
    ensures same { (result.0.numbers ≡ worker.numbers) × (result.0.drawn ≡ worker.drawn) }
    ensures claim { claim result.0 ≡ claim_left (claim worker) result.1 }
{
    if is_root(&path) {
        return pool.split(rt, worker, path, 3, 1);
    }
    if is_child(&path, 1) {
        return pool.leaf(rt, worker, path, Outcome::Suspended, 2);
    }
    if is_child(&path, 2) {
        return pool.leaf(rt, worker, path, Outcome::Failed, 1);
    }
    if is_child(&path, 3) {
        return pool.leaf(rt, worker, path, Outcome::Suspended, 4);
    }
    (worker, Err(AllocError))
}

/// Takes nodes and says what they are, until there are none or somebody stops.
fn explore<R: Wait>(rt: &R, pool: &SharedPool<Small>, worker: Worker<Small>) -> Worker<Small>
    requires pool { IsOf worker pool.now }
    requires free { claim worker ≡ None }
    ensures pool { IsOf result pool.now }
    ensures same { (result.numbers ≡ worker.numbers) × (result.drawn ≡ worker.drawn) }
{
    let mut worker = worker;
    'nodes: for _ in rt.forever() {
        let (taken, answer) = pool.claim(rt, worker);
        match answer {
            Ok(Claimed::Node(path)) => {
                let (settled, answer) = settle(rt, pool, taken, path);
                let Ok(Settled::Done) = answer else {
                    return settled;
                };
                worker = settled;
            }
            Ok(Claimed::Idle) => {
                thread::yield_now();
                worker = taken;
            }
            Ok(Claimed::Finished) => return taken,
            Ok(Claimed::Stopped(_)) => return taken,
            Err(_) => return taken,
        }
    }
    unreachable!()
}

/// Two threads explore the tree.
fn explore_by_two<R: Threads + Wait + Sync>(
    rt: &R,
    pool: SharedPool<Small>,
    worker: Worker<Small>,
) -> Ended<Plain>
    requires first { worker ≡ first_worker pool }
{
    let (first, second) = pool.enrol(rt, worker);
    let shared = &pool;
    let (first, second) = thread::join(
        rt,
        move || -> Worker<Small>
            requires pool { IsOf first shared.now }
            requires free { claim first ≡ None }
            ensures pool { IsOf result shared.entry.now }
            ensures same { (result.numbers ≡ first.numbers) × (result.drawn ≡ first.drawn) }
        { explore(rt, shared, first) },
        move || -> Worker<Small>
            requires pool { IsOf second shared.now }
            requires free { claim second ≡ None }
            ensures pool { IsOf result shared.entry.now }
            ensures same { (result.numbers ≡ second.numbers) × (result.drawn ≡ second.drawn) }
        { explore(rt, shared, second) },
    );
    let all = pool.join(rt, first, second);
    pool.close(all)
}

#[test]
fn two_threads_share_a_pool(rt: HostRuntime) -> Result<(), Fail> {
    let (pool, worker) = SharedPool::new(rt.alloc(), Small, 8)?;
    let Ended { entries, leaves } = explore_by_two(&rt, pool, worker);
    assert_eq!(rt; entries.len(), 8);
    assert_eq!(rt; leaves.len(), 2);
    Ok(())
}

#[test]
fn a_stop_ends_the_exploration(rt: HostRuntime) -> Result<(), Fail> {
    let (pool, first) = SharedPool::new(rt.alloc(), Small, 8)?;
    let (first, second) = pool.enrol(&rt, first);
    let first = pool.stop(&rt, first, StopCause::Memory);
    let (second, answer) = pool.claim(&rt, second);
    let Ok(Claimed::Stopped(Halt { worker, cause })) = answer else {
        panic!(rt; "the first worker stopped")
    };
    assert!(rt; worker == 0 && matches!(&cause, StopCause::Memory));
    let _both = (first, second);
    Ok(())
}
