//! Tests of pool_state.
ghost use Rattle.std.specs.Prelude.{◌≡◌, ℕ, List, [], ◌∷◌, IfOk};
ghost use Rattle.oz_search.specs.declared.history.Entry.TheVariants.{Claim, Split};

use oz_base::Sequence;
use oz_search::{Costed, Outcome, StopCause};
use pool_state::{Best, Claimed, Ended, Path, Plain, PoolState, Settled};
use std::alloc::AllocError;
use std::process::Abort;
use std::test::Fail;

/// The root has two children and 4 steps. Worker 1 takes the first child, and worker 0 the second.
fn take_both(
    rt: &impl Abort,
    pool: &mut PoolState<Plain>,
) -> Result<(Path<Plain>, Path<Plain>), AllocError>
    requires { pool.old.history ≡ [] }
    ensures budget { pool.new.budget ≡ pool.old.budget }
    ensures history { IfOk result (λ r. (root : List ℕ) × (pool.new.history ≡ Claim 0 root ∷ Split 0 root 2 4 ∷ Claim 1 r.0 ∷ Claim 0 r.1 ∷ [])) }
{
    let Claimed::Node(root) = pool.claim(0)? else {
        panic!(rt; "the root is open")
    };
    assert!(rt; root.len() == 0);
    assert!(rt; matches!(&pool.claim(1)?, Claimed::Idle));
    assert!(rt; matches!(&pool.split(0, root, 2, 4)?, Settled::Done));
    let Claimed::Node(first) = pool.claim(1)? else {
        panic!(rt; "the first child is open")
    };
    let Claimed::Node(second) = pool.claim(0)? else {
        panic!(rt; "the second child is open")
    };
    assert!(rt; first.len() == 1 && first.last() == 1);
    assert!(rt; second.len() == 1 && second.last() == 2);
    assert!(rt; !pool.finished());
    Ok((first, second))
}

// The right leaf comes first, and stands second at the end. A stop for want of memory comes last.
#[test]
fn leaves_are_in_path_order(rt: HostRuntime) -> Result<(), Fail> {
    let mut pool = PoolState::<Plain>::new(rt.alloc(), 10)?;
    let (first, second) = take_both(&rt, &mut pool)?;
    assert!(rt; matches!(&pool.leaf(0, second, Outcome::Suspended, 1)?, Settled::Done));
    assert!(rt; matches!(&pool.leaf(1, first, Outcome::Suspended, 1)?, Settled::Done));
    assert!(rt; pool.finished());
    pool.stop(1, StopCause::Memory);
    let Ended { entries, leaves } = pool.end();
    assert_eq!(rt; entries.len(), 7);
    assert_eq!(rt; leaves.len(), 2);
    let Some((path, place)) = leaves.first_key_value() else {
        panic!(rt; "there is a leaf")
    };
    assert!(rt; path.last() == 1 && *place == 5);
    Ok(())
}

// In best search a claim is under the least cost that was found before it.
#[test]
fn a_claim_bears_the_least_cost(rt: HostRuntime) -> Result<(), Fail> {
    let mut pool = PoolState::<Best>::new(rt.alloc(), 10)?;
    let Claimed::Node(root) = pool.claim(0)? else {
        panic!(rt; "the root is open")
    };
    assert!(rt; matches!(&pool.split(0, root, 2, 1)?, Settled::Done));
    let Claimed::Node(first) = pool.claim(0)? else {
        panic!(rt; "the first child is open")
    };
    assert!(rt; first.last() == 1);
    assert!(rt; matches!(first.as_slice().last(), Some(branch) if branch.bound.is_none()));
    let solved = Costed {
        outcome: Outcome::Solved(Sequence::new(rt.alloc())),
        cost: Some(5),
    };
    assert!(rt; matches!(&pool.leaf(0, first, solved, 1)?, Settled::Done));
    let Claimed::Node(second) = pool.claim(0)? else {
        panic!(rt; "the second child is open")
    };
    assert!(rt; second.last() == 2);
    assert!(rt; matches!(second.as_slice().last(), Some(branch) if branch.bound == Some(5)));
    Ok(())
}
