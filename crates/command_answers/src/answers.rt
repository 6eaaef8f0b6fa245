//! What `all`, `run` and `kernel` answer for a program.
ghost use Rattle.std.specs.Prelude.{◌≡◌, ◌≤◌, ◌^◌, ◌++◌, [], IfOk, OnOk, codes};
ghost use Rattle.oz_language.specs.Refusals.{Program};
ghost use Rattle.oz_language.specs.Translation.{kernel_of};
ghost use Rattle.oz_semantics.specs.Configurations.{view};
ghost use Rattle.oz_semantics.specs.Texts.{term_text};
ghost use Rattle.oz_replies.specs.Replies.{shown_lines, spent, answer_of_raise, searched, all_answer, run_answer, kernel_answer};
ghost use Rattle.call_laws.specs.Call.{answer_of_leaves};

use answer_plans::{Plan, add_spent, run_top};
use kernel_form::kernel_text;
use oz_base::{Ident, Sequence};
use oz_language::Kernel;
use oz_machine::{Machine, Ran};
use oz_outside::Gate;
use oz_replies::Cause;
use oz_search::Outcome;
use reply_text::{add_leaves_reply, lines};
use script_leaves::leaves;
use std::alloc::{AllocError, Global};
use std::sync::Wait;
use std::thread::Threads;

/// The lines of what was shown, with which each answer begins.
fn shown_lines(alloc: Global, machine: &Machine) -> Result<Vec<u8>, AllocError>
    ensures { IfOk result (λ lines. lines.items ≡ shown_lines machine.now.config) }
{
    lines(alloc, machine.shown())
}

/// The budget is exceeded.
fn spent(alloc: Global, mut reply: Vec<u8>, budget: u64) -> Result<Plan, AllocError>
    ensures { IfOk result (λ plan. (plan.cause, plan.reply.items) ≡ spent reply.items budget) }
{
    add_spent(alloc, budget, &mut reply)?;
    Ok(Plan {
        cause: Cause::Spent { total: budget },
        reply,
    })
}

/// The budget did not suffice for the top.
fn out_of_fuel(alloc: Global, machine: &Machine, budget: u64) -> Result<Plan, AllocError>
    ensures { IfOk result (λ plan. (plan.cause, plan.reply.items) ≡ spent (shown_lines machine.now.config) budget) }
{
    let reply = shown_lines(alloc, machine)?;
    spent(alloc, reply, budget)
}

/// Adds the line of an exception of the top.
fn add_raised(text: &[u8], out: &mut Vec<u8>) -> Result<(), AllocError>
    ensures { OnOk result (out.new.items ≡ out.old.items ++ codes "raised " ++ text.now ++ codes "\n") }
{
    out.extend_from_slice(b"raised ")?;
    out.extend_from_slice(text)?;
    out.extend_from_slice(b"\n")
}

/// An exception of the top, with so many steps left for its text.
fn raised(
    alloc: Global,
    machine: &Machine,
    exception: &Ident,
    budget: u64,
    left: u64,
) -> Result<Plan, AllocError>
    ensures { IfOk result (λ plan. (plan.cause, plan.reply.items)
        ≡ answer_of_raise (shown_lines machine.now.config) budget left (term_text machine.now.kernel.words (view machine.now.config.layers []) exception.now)) }
{
    let mut reply = shown_lines(alloc, machine)?;
    match machine.top_text(alloc, exception, left)? {
        None => spent(alloc, reply, budget),
        Some(text) => {
            add_raised(text.bytes.as_slice(), &mut reply)?;
            let cause = Cause::Raised { text: text.bytes };
            Ok(Plan { cause, reply })
        }
    }
}

/// What is written of the leaves that a search found, behind what was shown.
fn plan_leaves(
    alloc: Global,
    mut reply: Vec<u8>,
    budget: u64,
    found: Option<Sequence<Outcome>>,
) -> Result<Plan, AllocError>
    ensures { IfOk result (λ plan. (plan.cause, plan.reply.items) ≡ answer_of_leaves reply.items budget found) }
{
    match found {
        None => spent(alloc, reply, budget),
        Some(leaves) => {
            add_leaves_reply(alloc, leaves.as_slice(), &mut reply)?;
            Ok(Plan {
                cause: Cause::Done,
                reply,
            })
        }
    }
}

fn no_script(alloc: Global, machine: &Machine) -> Result<Plan, AllocError>
    ensures { IfOk result (λ plan. (plan.cause ≡ Cause.NoScript) × (plan.reply.items ≡ shown_lines machine.now.config ++ codes "no script\n")) }
{
    let mut reply = shown_lines(alloc, machine)?;
    reply.extend_from_slice(b"no script\n")?;
    Ok(Plan {
        cause: Cause::NoScript,
        reply,
    })
}

/// Lets go of a machine that has come to rest.
fn drop_machine(_machine: Machine) {}

/// What `all` answers where the top has come to rest.
fn searched<R: Threads + Wait + Sync, G: Gate>(
    rt: &R,
    alloc: Global,
    machine: Machine,
    workers: u32,
    budget: u64,
    left: u64,
    gate: &G,
) -> Result<Plan, AllocError>
    requires workers { (1 ≤ workers) × (workers ≤ 64) }
    requires small { left ≤ 2 ^ 48 }
    ensures { IfOk result (λ plan. (plan.cause, plan.reply.items) ≡ searched machine.kernel budget machine.config left) }
{
    match machine.script() {
        None => {
            let plan = no_script(alloc, &machine);
            drop_machine(machine);
            plan
        }
        Some(script) => {
            let reply = shown_lines(alloc, &machine)?;
            let found = leaves(rt, alloc, machine, script, workers, left, gate)?;
            plan_leaves(alloc, reply, budget, found)
        }
    }
}

/// What `run` answers where the top has come to rest.
fn done(alloc: Global, machine: &Machine) -> Result<Plan, AllocError>
    ensures { IfOk result (λ plan. (plan.cause ≡ Cause.Done) × (plan.reply.items ≡ shown_lines machine.now.config)) }
{
    Ok(Plan {
        cause: Cause::Done,
        reply: shown_lines(alloc, machine)?,
    })
}

/// What `all` answers for a kernel: the leaves of its script, found by so many workers, from 1 to 64, in no more than so many steps. It
/// refuses where there is no memory. The gate is called round the solving of each node.
pub fn all_answer<R: Threads + Wait + Sync, G: Gate>(
    rt: &R,
    alloc: Global,
    kernel: Kernel,
    workers: u32,
    budget: u64,
    gate: &G,
) -> Result<Plan, AllocError>
    requires workers { (1 ≤ workers) × (workers ≤ 64) }
    requires small { budget ≤ 2 ^ 48 }
    ensures { IfOk result (λ plan. (plan.cause, plan.reply.items) ≡ all_answer kernel budget) }
{
    let (machine, ran) = run_top(alloc, kernel, budget)?;
    match ran {
        Ran::OutOfFuel => out_of_fuel(alloc, &machine, budget),
        Ran::TopEnded { exception, steps } => raised(
            alloc,
            &machine,
            &exception,
            budget,
            budget - steps,
        ),
        Ran::Ended { steps, .. } => searched(
            rt,
            alloc,
            machine,
            workers,
            budget,
            budget - steps,
            gate,
        ),
    }
}

/// What `run` answers for a kernel: what its top shows in no more than so many steps. It refuses where there is no memory.
pub fn run_answer(alloc: Global, kernel: Kernel, budget: u64) -> Result<Plan, AllocError>
    ensures { IfOk result (λ plan. (plan.cause, plan.reply.items) ≡ run_answer kernel budget) }
{
    let (machine, ran) = run_top(alloc, kernel, budget)?;
    match ran {
        Ran::OutOfFuel => out_of_fuel(alloc, &machine, budget),
        Ran::TopEnded { exception, steps } => raised(
            alloc,
            &machine,
            &exception,
            budget,
            budget - steps,
        ),
        Ran::Ended { .. } => done(alloc, &machine),
    }
}

/// What `kernel` answers: the kernel as a text. It refuses where there is no memory.
pub fn kernel_answer(alloc: Global, kernel: &Kernel) -> Result<Plan, AllocError>
    ensures { (p : Program) → kernel.now ≡ kernel_of p → IfOk result (λ plan. (plan.cause, plan.reply.items) ≡ kernel_answer p) }
{
    let text = kernel_text(alloc, kernel)?;
    Ok(Plan {
        cause: Cause::Done,
        reply: text.into_vec(),
    })
}
