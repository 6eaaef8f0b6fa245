//! What is written of what a search has found.
ghost use Rattle.std.specs.Prelude.{◌≡◌, ◌+◌, ℕ, IfOk};
ghost use Rattle.oz_replies.specs.BestReplies as answers;
ghost use Rattle.best_answers.specs.Told.{answer_after, planned};

use answer_plans::{Plan, add_spent};
use best_search::Found;
use oz_base::Sequence;
use oz_replies::Cause;
use oz_search::{Costed, Entry};
use pool_state::{Best, Path};
use reply_text::add_best;
use std::alloc::{AllocError, Global};

/// A solution of the least cost.
fn solution(alloc: Global, text: &[u8], cost: i128) -> Result<Plan, AllocError>
    ensures { (budget : ℕ) → IfOk result (λ plan. (plan.cause, plan.reply.items) ≡ planned budget (answers.Best text.now cost)) }
{
    let mut reply = Vec::new(alloc);
    add_best(alloc, text, cost, &mut reply)?;
    Ok(Plan {
        cause: Cause::Done,
        reply,
    })
}

/// There is no solution.
fn no_solution(alloc: Global) -> Result<Plan, AllocError>
    ensures { (budget : ℕ) → IfOk result (λ plan. (plan.cause, plan.reply.items) ≡ planned budget answers.NoSolution) }
{
    Ok(Plan {
        cause: Cause::Done,
        reply: b"none\n".to_vec(alloc)?,
    })
}

/// The budget is exceeded, by so many steps in all, of which these entries tell.
fn spent(
    alloc: Global,
    budget: u64,
    total: u128,
    entries: Vec<Entry<Path<Best>, Costed>>,
) -> Result<Plan, AllocError>
    ensures { IfOk result (λ plan. (plan.cause, plan.reply.items) ≡ planned budget (answers.Spent total entries.items)) }
{
    let mut reply = Vec::new(alloc);
    add_spent(alloc, budget, &mut reply)?;
    let entries = Sequence::from_vec(entries);
    Ok(Plan {
        cause: Cause::SpentBest { total, entries },
        reply,
    })
}

/// The steps of the top and of the search together.
fn in_all(steps: u64, found: u64) -> u128
    ensures { result ≡ steps + found }
{
    u128::from(steps) + u128::from(found)
}

/// What is written of what a search has found, where the top took so many steps before.
pub fn plan_found(alloc: Global, found: Found, steps: u64, budget: u64) -> Result<Plan, AllocError>
    ensures { IfOk result (λ plan. (plan.cause, plan.reply.items) ≡ planned budget (answer_after steps found)) }
{
    match found {
        Found::Best { text, cost } => solution(alloc, text.as_slice(), cost),
        Found::NoSolution => no_solution(alloc),
        Found::Spent { total, entries } => { spent(alloc, budget, in_all(steps, total), entries) }
    }
}
