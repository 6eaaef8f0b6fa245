//! What a command answers for a program.
ghost use Rattle.std.specs.Prelude.{◌≡◌, ◌≤◌, ◌^◌, ℕ, List, IfOk, MatchOption, codes};
ghost use Rattle.oz_language.specs.Refusals.{Accepts};
ghost use Rattle.oz_language.specs.Translation.{kernel_of};
ghost use Rattle.oz_commands.specs.Commands.{InRange};
ghost use Rattle.fd_form.specs.Costs.{HasCost, HasNoCost};
ghost use Rattle.fd_form.specs.declared.script.FdScript.{FdScript};
ghost use Rattle.oz_replies.specs.Replies.{line};
ghost use Rattle.oz_replies.specs.BestReplies.{IsBestReply, best_cause};
ghost use Rattle.call_laws.specs.Call.{IsAnswered};

use answer_plans::Plan;
use best_answers::best_answer;
use best_laws::best_answer_law;
use command_answers::{all_answer, kernel_answer, run_answer};
use fd_form::{Cost, cost_of, fd_form};
use fd_opening::rests_law;
use kernel_trans::translate;
use oz_commands::Command;
use oz_language::Kernel;
use oz_outside::Gate;
use oz_reader::Program;
use oz_replies::Cause;
use std::alloc::{AllocError, Global};
use std::sync::Wait;
use std::thread::Threads;

/// The kernel of a program.
fn kernel_of(alloc: Global, program: Program) -> Result<Kernel, AllocError>
    ensures { IfOk result (λ kernel. kernel ≡ kernel_of program) }
{
    let (words, phrase) = program.into_parts();
    translate(alloc, words, &phrase)
}

/// The cost of the script that a program is, if it is one with a cost.
fn script_cost(alloc: Global, program: &Program) -> Result<Option<Cost>, AllocError>
    ensures { IfOk result (λ found. MatchOption found (HasNoCost program.now) (λ cost. (s : FdScript) × HasCost program.now s cost.place cost.feature)) }
{
    match fd_form(alloc, program.words(), program.phrase())? {
        None => Ok(None),
        Some(script) => Ok(cost_of(program.words(), &script)),
    }
}

/// The program is no script with a cost.
fn not_fd(alloc: Global) -> Result<Plan, AllocError>
    ensures { IfOk result (λ plan. (plan.cause ≡ Cause.NotFd) × (plan.reply.items ≡ line (codes "not fd"))) }
{
    Ok(Plan {
        cause: Cause::NotFd,
        reply: b"not fd\n".to_vec(alloc)?,
    })
}

/// What `best` answers for a script with this cost.
fn script_answer<R: Threads + Wait + Sync, G: Gate>(
    rt: &R,
    alloc: Global,
    program: Program,
    cost: Cost,
    workers: u32,
    budget: u64,
    gate: &G,
) -> Result<Plan, AllocError>
    requires read { (text : List ℕ) × Accepts text program }
    requires cost { (s : FdScript) × HasCost program s cost.place cost.feature }
    requires workers { (1 ≤ workers) × (workers ≤ 64) }
    requires budget { (1 ≤ budget) × (budget ≤ 2 ^ 48) }
    ensures { IfOk result (λ plan. IsBestReply best_cause workers budget program (plan.cause, plan.reply.items)) }
{
    rests_law();
    best_answer_law();
    let kernel = kernel_of(alloc, program)?;
    best_answer(rt, alloc, kernel, cost.feature, workers, budget, gate)
}

/// What `best` answers for a program.
fn best_for<R: Threads + Wait + Sync, G: Gate>(
    rt: &R,
    alloc: Global,
    program: Program,
    workers: u32,
    budget: u64,
    gate: &G,
) -> Result<Plan, AllocError>
    requires read { (text : List ℕ) × Accepts text program }
    requires workers { (1 ≤ workers) × (workers ≤ 64) }
    requires budget { (1 ≤ budget) × (budget ≤ 2 ^ 48) }
    ensures { IfOk result (λ plan. IsBestReply best_cause workers budget program (plan.cause, plan.reply.items)) }
{
    match script_cost(alloc, &program)? {
        None => not_fd(alloc),
        Some(cost) => script_answer(rt, alloc, program, cost, workers, budget, gate),
    }
}

/// What a command answers for the program of a text. It refuses where there is no memory. The gate is called round the solving of each node
/// of a search.
pub fn answer_for<R: Threads + Wait + Sync, G: Gate>(
    rt: &R,
    alloc: Global,
    command: Command,
    program: Program,
    gate: &G,
) -> Result<Plan, AllocError>
    requires range { InRange command }
    requires read { (text : List ℕ) × Accepts text program }
    ensures { IfOk result (λ plan. IsAnswered command program (plan.cause, plan.reply.items)) }
{
    match command {
        Command::All { workers, budget } => {
            let kernel = kernel_of(alloc, program)?;
            all_answer(rt, alloc, kernel, workers, budget, gate)
        }
        Command::Run { budget } => run_answer(alloc, kernel_of(alloc, program)?, budget),
        Command::Best { workers, budget } => best_for(rt, alloc, program, workers, budget, gate),
        Command::Kernel => kernel_answer(alloc, &kernel_of(alloc, program)?),
    }
}
