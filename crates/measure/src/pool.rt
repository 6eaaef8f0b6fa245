//! Claims of a pool.
ghost use Rattle.std.specs.Prelude.{◌≡◌, ◌<◌, ◌≤◌, None, IfOk};
ghost use Rattle.std.specs.Bool.{OnTrue};
ghost use Rattle.oz_search.specs.Histories.{claim_of};

use oz_search::Outcome;
use pool_state::{Claimed, Plain, PoolState, Settled};
use std::alloc::{AllocError, Global};

/// Worker 0 takes a node, and says that it is a leaf. Whether that fits.
#[tactic(auto, using(search_law::proofs::Entries::claim_of_push))]
fn end_one(pool: &mut PoolState<Plain>) -> Result<bool, AllocError>
    requires free { claim_of pool.old.history 0 ≡ None }
    ensures free { IfOk result (λ more. OnTrue more (claim_of pool.new.history 0 ≡ None)) }
{
    let Claimed::Node(path) = pool.claim(0)? else {
        return Ok(false);
    };
    let Settled::Done = pool.leaf(0, path, Outcome::Suspended, 1)? else {
        return Ok(false);
    };
    Ok(true)
}

/// Worker 0 takes so many nodes, one after another.
fn end_all(mut pool: PoolState<Plain>, count: u32) -> Result<bool, AllocError>
    requires free { claim_of pool.history 0 ≡ None }
{
    for _ in 0..count {
        if !end_one(&mut pool)? {
            return Ok(false);
        }
    }
    Ok(pool.finished())
}

/// One worker explores a tree of a root and so many leaves. Whether that came to its end.
#[tactic(auto, using(search_law::proofs::Entries::claim_of_push))]
pub fn explore(alloc: Global, count: u32) -> Result<bool, AllocError> {
    let mut pool = PoolState::<Plain>::new(alloc, 1_000_001)?;
    let Claimed::Node(root) = pool.claim(0)? else {
        return Ok(false);
    };
    if count == 0 {
        return Ok(false);
    }
    let Settled::Done = pool.split(0, root, count, 1)? else {
        return Ok(false);
    };
    end_all(pool, count)
}
