//! The search for a best solution.
ghost use Rattle.std.specs.Prelude.{◌≤◌, IfOk};
ghost use Rattle.recompute.specs.Bests.{best_tree_of};
ghost use Rattle.best_search.specs.Found.{IsFoundBy};

use crate::ending::{Found, found_in};
use oz_outside::Gate;
use recompute::{FrozenBest, Source};
use search_crew::{best_crosses, explored};
use std::alloc::{AllocError, Global};
use std::marker::Brand;
use std::sync::Wait;
use std::thread::Threads;

/// A solution of the least cost of the tree that is searched, by so many workers; or that there is none; or that there are too few
/// steps for this search, with its history. Which of several best solutions is found may depend on the workers, and with several
/// of them also how many steps the search takes. It is refused where memory is refused to the search, or for what it has found.
/// The gate is called round the solving of each node, with the number of the worker, from 1.
pub fn search_best<R: Threads + Wait + Sync, G: Gate>(
    rt: &R,
    alloc: Global,
    source: &FrozenBest,
    workers: u32,
    gate: &G,
) -> Result<Found, AllocError>
    requires { (1 ≤ workers) × (workers ≤ 64) }
    ensures { IfOk result (λ found. IsFoundBy (best_tree_of source.now) source.now.start.budget workers found) }
{
    best_crosses();
    let budget = source.frozen().budget();
    let ended = explored::<R, G, FrozenBest, Brand>(rt, alloc, source, workers, gate)?;
    found_in(alloc, ended, budget)
}
