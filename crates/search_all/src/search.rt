//! The search for all leaves.
ghost use Rattle.std.specs.Prelude.{◌≡◌, ◌≤◌, IfOk};
ghost use Rattle.search_all.specs.Answers.{answer_of};

use crate::ending::found;
use oz_base::Sequence;
use oz_outside::Gate;
use oz_search::Outcome;
use recompute::Frozen;
use search_crew::{explored, plain_crosses};
use std::alloc::{AllocError, Global};
use std::marker::Brand;
use std::sync::Wait;
use std::thread::Threads;

/// The leaves of the tree that is searched, from left to right, by so many workers. `None` exactly where the tree takes more
/// steps than there are for the search. What is found does not depend on the workers. The gate is called round the solving of
/// each node, with the number of the worker, from 1.
pub fn search_all<R: Threads + Wait + Sync, G: Gate>(
    rt: &R,
    alloc: Global,
    frozen: &Frozen,
    workers: u32,
    gate: &G,
) -> Result<Option<Sequence<Outcome>>, AllocError>
    requires { (1 ≤ workers) × (workers ≤ 64) }
    ensures { IfOk result (λ found. found ≡ answer_of frozen.now) }
{
    plain_crosses();
    let ended = explored::<R, G, Frozen, Brand>(rt, alloc, frozen, workers, gate)?;
    found(alloc, ended)
}
