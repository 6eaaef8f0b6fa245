//! What `best` answers.
ghost use Rattle.std.specs.Prelude.{◌≡◌, ◌≤◌, ◌^◌, ℕ, [], IfOk};
ghost use Rattle.oz_semantics.specs.BestSearch.{script_best};
ghost use Rattle.oz_semantics.specs.Runs.{Ended, run, opening};
ghost use Rattle.oz_semantics.specs.declared.configuration.Configuration.{Configuration};
ghost use Rattle.oz_replies.specs.BestReplies.{BestAnswer, IsToldOf};
ghost use Rattle.best_search.specs.Found.{IsFoundBy};
ghost use Rattle.best_answers.specs.Told.{planned};

use crate::plans::plan_found;
use crate::start::{rested, start};
use answer_plans::Plan;
use best_search::{Found, search_best};
use oz_language::{Constant, Kernel};
use oz_machine::Machine;
use oz_outside::Gate;
use std::alloc::{AllocError, Global};
use std::sync::Wait;
use std::thread::Threads;

/// What the best search of the script finds, whose top has come to rest.
fn searched<R: Threads + Wait + Sync, G: Gate>(
    rt: &R,
    alloc: Global,
    machine: Machine,
    feature: Constant,
    workers: u32,
    left: u64,
    gate: &G,
) -> Result<Found, AllocError>
    requires workers { (1 ≤ workers) × (workers ≤ 64) }
    requires small { left ≤ 2 ^ 48 }
    ensures { IfOk result (λ found. IsFoundBy (script_best machine.kernel feature machine.config) left workers found) }
{
    let start = start(alloc, machine, feature, left)?;
    search_best(rt, alloc, &start, workers, gate)
}

/// What `best` answers for the kernel of a script whose cost is at this feature, and whose top comes to rest within the budget: a solution
/// of the least cost, found by so many workers, from 1 to 64, in no more than so many steps with those of the top. The gate is called round
/// the solving of each node, with the number of the worker, from 1. It refuses where there is no memory.
pub fn best_answer<R: Threads + Wait + Sync, G: Gate>(
    rt: &R,
    alloc: Global,
    kernel: Kernel,
    feature: Constant,
    workers: u32,
    budget: u64,
    gate: &G,
) -> Result<Plan, AllocError>
    requires rests { (top : Configuration) × (left : ℕ) × (run kernel [] (opening kernel) budget ≡ Ended top left) }
    requires workers { (1 ≤ workers) × (workers ≤ 64) }
    requires small { budget ≤ 2 ^ 48 }
    ensures { (top : Configuration) (left : ℕ) → run kernel [] (opening kernel) budget ≡ Ended top left
        → IfOk result (λ plan. (a : BestAnswer) × IsToldOf kernel feature top budget left workers a × ((plan.cause, plan.reply.items) ≡ planned budget a)) }
{
    let (machine, left) = rested(alloc, kernel, budget)?;
    let found = searched(rt, alloc, machine, feature, workers, left, gate)?;
    plan_found(alloc, found, budget - left, budget)
}
