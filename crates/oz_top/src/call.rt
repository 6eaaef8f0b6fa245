//! The call that does all that the program does.
ghost use Rattle.std.specs.Prelude.{◌≡◌, ◌≢◌, ◌⊎◌, ◌≤◌, ◌<◌, ◌++◌, ◌+◌, ℕ, List, [], map, length, IfOk, Some};
ghost use Rattle.std.specs.String.{string_bytes};
ghost use Rattle.std.specs.Io.KnownBytes.{Appends};
ghost use Rattle.oz_outside.specs.Counts.{Rose};
ghost use Rattle.oz_language.specs.Refusals.{Program, Accepts, IsRefused};
ghost use Rattle.oz_language.specs.Translation.{statements_of, kernel_of};
ghost use Rattle.oz_language.specs.KernelTexts.{kernel_text};
ghost use Rattle.oz_commands.specs.Commands.{InRange, Spells, IsUsage, AsksAll, AsksRun, AsksBest, AsksKernel};
ghost use Rattle.oz_semantics.specs.Runs.{Ended, run, opening};
ghost use Rattle.fd_form.specs.FdScripts.{fd_form};
ghost use Rattle.fd_form.specs.Costs.{HasCost};
ghost use Rattle.fd_form.specs.declared.script.FdScript.{FdScript};
ghost use Rattle.fd_form_law.specs.FdCompleteness.{AreAnswers};
ghost use Rattle.oz_replies.specs.Calls.{IsReply};
ghost use Rattle.oz_replies.specs.BestReplies.{BestAnswer, IsBestAnswer, ShowsOptimum, best_cause, best_reply};
ghost use Rattle.oz_replies.specs.Replies.{Searches, status_of, text_limit, usage_reply, too_large_reply, shown_lines, leaves_reply, kind_text, refused_answer, all_answer, run_answer};
ghost use Rattle.oz_commands.specs.declared.command.Command.{Command};
ghost use Rattle.oz_semantics.specs.declared.configuration.Configuration.{Configuration};
ghost use Rattle.oz_language.specs.declared.fault.RefusalKind.{RefusalKind};
ghost use Rattle.oz_language.specs.declared.fault.Fault.{Fault};
ghost use Rattle.oz_language.specs.declared.kernel.Constant.{Constant};
ghost use Rattle.oz_search.specs.declared.leaf.Outcome.{Outcome as Leaf};
ghost use Rattle.oz_replies.specs.declared.cause.Cause.{Cause};
ghost use Rattle.call_laws.specs.Call.{TextGives, AsText, IsCommand, Plans, IsDue, IsRead, IsBounded, Ends, Answers, IsExcused};

use crate::answers::answer_for;
use answer_plans::Plan;
use command_line::read_command;
use oz_commands::Command;
use oz_language::{Fault, RefusalKind};
use oz_outside::{Gate, READ_LIMIT, ReadError as SourceError, Sink, Source, read_all, write_all};
use oz_reader::{ReadError, read_program};
use oz_replies::Cause;
use reply_text::add_decimal;
use std::alloc::{AllocError, Global};
use std::sync::Wait;
use std::thread::Threads;

fn make_plan(alloc: Global, cause: Cause, reply: &[u8]) -> Result<Plan, AllocError>
    ensures { IfOk result (λ plan. (plan.cause ≡ cause) × (plan.reply.items ≡ reply.now)) }
{
    Ok(Plan {
        cause,
        reply: reply.to_vec(alloc)?,
    })
}

fn kind_text(kind: RefusalKind) -> &'static [u8]
    ensures { result.now ≡ kind_text kind }
{
    match kind {
        RefusalKind::Byte => b"byte",
        RefusalKind::Deep => b"deep",
        RefusalKind::Syntax => b"syntax",
        RefusalKind::Unbound => b"unbound",
        RefusalKind::Linear => b"linear",
    }
}

fn refused(alloc: Global, fault: Fault) -> Result<Plan, AllocError>
    ensures { IfOk result (λ plan. (plan.cause, plan.reply.items) ≡ refused_answer fault) }
{
    let mut reply = b"refused ".to_vec(alloc)?;
    reply.extend_from_slice(kind_text(fault.kind))?;
    reply.extend_from_slice(b" ")?;
    add_decimal(alloc, fault.at as u64, &mut reply)?;
    reply.extend_from_slice(b"\n")?;
    Ok(Plan {
        cause: Cause::Refused(fault),
        reply,
    })
}

/// What a command answers for a text.
fn answer<R: Threads + Wait + Sync, G: Gate>(
    rt: &R,
    alloc: Global,
    command: Command,
    text: &[u8],
    gate: &G,
) -> Result<Plan, AllocError>
    requires size { length text.now ≤ text_limit }
    requires range { InRange command }
    ensures gives { IfOk result (λ plan. TextGives text.now command plan.cause plan.reply.items) }
    ensures due { IfOk result (λ plan. AsText text.now command (plan.cause, plan.reply.items)) }
{
    match read_program(alloc, text) {
        Ok(program) => answer_for(rt, alloc, command, program, gate),
        Err(ReadError::Refused(fault)) => refused(alloc, fault),
        Err(ReadError::Memory) => Err(AllocError),
    }
}

/// A plan that writes nothing.
fn silent(alloc: Global, cause: Cause) -> Plan
    ensures cause { result.cause ≡ cause }
    ensures reply { result.reply.items ≡ [] }
{
    Plan {
        cause,
        reply: Vec::new(alloc),
    }
}

/// What a command answers for a text. Where memory is refused, that is the answer.
fn plan_text<R: Threads + Wait + Sync, G: Gate>(
    rt: &R,
    alloc: Global,
    command: Command,
    text: &[u8],
    gate: &G,
) -> Plan
    requires size { length text.now ≤ text_limit }
    requires range { InRange command }
    ensures gives { TextGives text.now command result.cause result.reply.items }
    ensures due { AsText text.now command (result.cause, result.reply.items) }
{
    match answer(rt, alloc, command, text, gate) {
        Ok(plan) => plan,
        Err(_) => silent(alloc, Cause::NoMemory),
    }
}

/// One byte more than a text may have was read.
fn plan_too_large(alloc: Global) -> Plan
    ensures { ((result.cause ≡ Cause.TooLarge (text_limit + 1)) × (result.reply.items ≡ too_large_reply))
        ⊎ ((result.cause ≡ Cause.NoMemory) × (result.reply.items ≡ [])) }
{
    let count = READ_LIMIT as u64 + 1;
    match make_plan(alloc, Cause::TooLarge { count }, b"too large\n") {
        Ok(plan) => plan,
        Err(_) => silent(alloc, Cause::NoMemory),
    }
}

/// What a command answers for the text of a source, before anything is written.
fn plan_command<R: Threads + Wait + Sync, S: Source, G: Gate>(
    rt: &R,
    alloc: Global,
    command: Command,
    source: &mut S,
    gate: &G,
) -> Plan
    requires { InRange command }
    ensures plans { (words : List (List ℕ)) → IsCommand words command → Plans words
        (record { left = S.left source.old; faults = S.faults source.old })
        (record { left = S.left source.new; faults = S.faults source.new }) result.cause result.reply.items }
    ensures due { (words : List (List ℕ)) (bytes : List ℕ) → IsCommand words command → S.left source.old ≡ Some bytes → IsDue words bytes result.cause result.reply.items }
    ensures read { (bytes : List ℕ) → S.left source.old ≡ Some bytes → IsRead bytes (S.left source.new) result.cause }
    ensures bounded { IsBounded (S.left source.old) (S.left source.new) }
{
    match read_all(alloc, source) {
        Ok(text) => plan_text(rt, alloc, command, text.as_slice(), gate),
        Err(SourceError::TooLarge) => plan_too_large(alloc),
        Err(SourceError::Fault) => silent(alloc, Cause::ReadFault),
        Err(SourceError::Memory) => silent(alloc, Cause::NoMemory),
    }
}

/// The words spell no command.
fn plan_usage(alloc: Global) -> Plan
    ensures { ((result.cause ≡ Cause.Usage) × (result.reply.items ≡ usage_reply))
        ⊎ ((result.cause ≡ Cause.NoMemory) × (result.reply.items ≡ [])) }
{
    match make_plan(alloc, Cause::Usage, b"usage\n") {
        Ok(plan) => plan,
        Err(_) => silent(alloc, Cause::NoMemory),
    }
}

/// What the words ask for, before anything is written.
fn plan_words<R: Threads + Wait + Sync, S: Source, G: Gate>(
    rt: &R,
    alloc: Global,
    words: &[String],
    source: &mut S,
    gate: &G,
) -> Plan
    ensures plans { Plans (map string_bytes words.now)
        (record { left = S.left source.old; faults = S.faults source.old })
        (record { left = S.left source.new; faults = S.faults source.new }) result.cause result.reply.items }
    ensures due { (bytes : List ℕ) → S.left source.old ≡ Some bytes → IsDue (map string_bytes words.now) bytes result.cause result.reply.items }
    ensures read { (c : Command) (bytes : List ℕ) → Spells (map string_bytes words.now) c → S.left source.old ≡ Some bytes → IsRead bytes (S.left source.new) result.cause }
    ensures unread { IsUsage (map string_bytes words.now) → source.new ≡ source.old }
    ensures bounded { IsBounded (S.left source.old) (S.left source.new) }
{
    match read_command(alloc, words) {
        Ok(Some(command)) => plan_command(rt, alloc, command, source, gate),
        Ok(None) => plan_usage(alloc),
        Err(_) => silent(alloc, Cause::NoMemory),
    }
}

/// How a call of the program ended: the status for the process, and why.
#[derive(Drop)]
pub struct Outcome {
    pub status: u8,
    pub cause: Cause,
}

fn status_of(cause: &Cause) -> u8
    ensures { result ≡ status_of cause.now }
{
    match cause {
        Cause::Done => 0,
        Cause::Raised { .. } => 1,
        Cause::Usage => 2,
        Cause::Refused { .. } => 3,
        Cause::ReadFault => 4,
        Cause::WriteFault => 5,
        Cause::Spent { .. } => 6,
        Cause::SpentBest { .. } => 6,
        Cause::NoMemory => 7,
        Cause::TooLarge { .. } => 8,
        Cause::NoScript => 9,
        Cause::NotFd => 10,
    }
}

fn outcome_of(cause: Cause) -> Outcome
    ensures cause { result.cause ≡ cause }
    ensures status { result.status ≡ status_of cause }
{
    let status = status_of(&cause);
    Outcome { status, cause }
}

/// Writes a reply. Where a write fails, that is the cause.
fn finish<K: Sink>(cause: Cause, reply: &[u8], sink: &mut K) -> Outcome
    ensures ends { Ends cause reply.now
        (record { written = K.written sink.old; faults = K.faults sink.old })
        (record { written = K.written sink.new; faults = K.faults sink.new }) result.cause }
    ensures status { result.status ≡ status_of result.cause }
{
    match write_all(sink, reply) {
        Ok(()) => outcome_of(cause),
        Err(_) => outcome_of(Cause::WriteFault),
    }
}

/// Does what the words ask: reads a program from the source, and writes to the sink what it shows, and for `all` then the leaves
/// of its search; for `best` a solution of the least cost and that cost; or, for `kernel`, the program's kernel. The words are those
/// after the program's name. For `all`, `run` and `kernel`, what is written and why the call ended depends neither on the number of
/// workers nor on how their turns fall. For `best` it is one of the right answers, of which there may be several: any of the solutions
/// of the least cost, and with several workers a search may take more steps than with one.
///
/// A fault of the source or of the sink comes only where its count rose in this call. Want of memory may be answered at any
/// time before the writing, and then nothing is written.
pub fn oz_call<R: Threads + Wait + Sync, S: Source, K: Sink, G: Gate>(
    rt: &R,
    alloc: Global,
    words: &[String],
    source: &mut S,
    sink: &mut K,
    gate: &G,
) -> Outcome
    ensures status { result.status ≡ status_of result.cause }

    // The cause, what was read and what was written belong together: a planned cause with its reply, whole or cut short by
    // a counted fault of the sink.
    ensures answers { Answers (map string_bytes words.now)
        (record { left = S.left source.old; faults = S.faults source.old })
        (record { left = S.left source.new; faults = S.faults source.new })
        (record { written = K.written sink.old; faults = K.faults sink.old })
        (record { written = K.written sink.new; faults = K.faults sink.new }) result.cause }

    // Where the source tells its bytes and neither a read nor memory fails, cause and reply are an answer to words and bytes: the only
    // one for `all`, `run` and `kernel`, and for `best` one that is right.
    ensures reply { (bytes : List ℕ) → S.left source.old ≡ Some bytes → result.cause ≢ Cause.ReadFault → result.cause ≢ Cause.NoMemory
        → (cause : Cause) × (reply : List ℕ) × IsReply (map string_bytes words.now) bytes (cause, reply)
        × Ends cause reply
        (record { written = K.written sink.old; faults = K.faults sink.old })
        (record { written = K.written sink.new; faults = K.faults sink.new }) result.cause }

    // `all` on an accepted text whose top becomes quiescent with a script, and whose tree takes no more than what is left of
    // the budget, writes what the top has shown and exactly the unfailed leaves, each once, left to right, and their totals;
    // with any number of workers.
    ensures leaves { (budget : ℕ) (bytes before : List ℕ) (p : Program) (found : List (List ℕ × Leaf)) (steps : ℕ) → AsksAll (map string_bytes words.now) budget
        → S.left source.old ≡ Some bytes → K.written sink.old ≡ Some before → length bytes ≤ text_limit → Accepts bytes p
        → (s : Searches (kernel_of p) budget (Some (found, steps)))
        → result.cause ≢ Cause.ReadFault → result.cause ≢ Cause.WriteFault → result.cause ≢ Cause.NoMemory
        → (result.cause ≡ Cause.Done) × (K.written sink.new ≡ Some (before ++ shown_lines s.top ++ leaves_reply (map (λ (leaf : List ℕ × Leaf). leaf.1) found))) }

    // It is spent exactly where the tree takes more.
    ensures spent { (budget : ℕ) (bytes : List ℕ) (p : Program) → AsksAll (map string_bytes words.now) budget
        → S.left source.old ≡ Some bytes → length bytes ≤ text_limit → Accepts bytes p → Searches (kernel_of p) budget None
        → (result.cause ≡ Cause.Spent budget) ⊎ IsExcused result.cause }

    // Where it is done on a finite-domain script, what was written is a line for each assignment that meets every relation which the
    // script posts, each once, for `naive` in lexicographic order, and the totals.
    ensures assignments { (budget : ℕ) (bytes before : List ℕ) (p : Program) (script : FdScript) → AsksAll (map string_bytes words.now) budget
        → S.left source.old ≡ Some bytes → K.written sink.old ≡ Some before → length bytes ≤ text_limit → Accepts bytes p → fd_form p ≡ Some script
        → result.cause ≡ Cause.Done
        → (leaves : List Leaf) × AreAnswers p.words script leaves × (K.written sink.new ≡ Some (before ++ leaves_reply leaves)) }

    // `run` on an accepted text whose top becomes quiescent within the budget writes exactly what the top has shown.
    ensures shown { (budget : ℕ) (bytes before : List ℕ) (p : Program) (top : Configuration) (left : ℕ) → AsksRun (map string_bytes words.now) budget
        → S.left source.old ≡ Some bytes → K.written sink.old ≡ Some before → length bytes ≤ text_limit → Accepts bytes p
        → run (kernel_of p) [] (opening (kernel_of p)) budget ≡ Ended top left
        → result.cause ≢ Cause.ReadFault → result.cause ≢ Cause.WriteFault → result.cause ≢ Cause.NoMemory
        → (result.cause ≡ Cause.Done) × (K.written sink.new ≡ Some (before ++ shown_lines top)) }

    // `best` on an accepted text writes one of the right answers to its program.
    ensures best { (workers budget : ℕ) (bytes before : List ℕ) (p : Program) → AsksBest (map string_bytes words.now) workers budget
        → S.left source.old ≡ Some bytes → K.written sink.old ≡ Some before → length bytes ≤ text_limit → Accepts bytes p
        → result.cause ≢ Cause.ReadFault → result.cause ≢ Cause.WriteFault → result.cause ≢ Cause.NoMemory
        → (a : BestAnswer) × IsBestAnswer p workers budget a × (result.cause ≡ best_cause a) × (K.written sink.new ≡ Some (before ++ best_reply budget a)) }

    // Where it is done on a finite-domain script with a cost, what was written is the text of an assignment that meets every relation
    // which the script posts and whose cost none betters, and that cost; or `none`, and no assignment meets them.
    ensures optimum { (workers budget : ℕ) (bytes before : List ℕ) (p : Program) (script : FdScript) (place : ℕ) (feature : Constant) → AsksBest (map string_bytes words.now) workers budget
        → S.left source.old ≡ Some bytes → K.written sink.old ≡ Some before → length bytes ≤ text_limit → Accepts bytes p → HasCost p script place feature
        → result.cause ≡ Cause.Done
        → (reply : List ℕ) × ShowsOptimum p.words script place reply × (K.written sink.new ≡ Some (before ++ reply)) }

    // `kernel` on an accepted text writes its kernel.
    ensures kernel { (bytes before : List ℕ) (p : Program) → AsksKernel (map string_bytes words.now)
        → S.left source.old ≡ Some bytes → K.written sink.old ≡ Some before → length bytes ≤ text_limit → Accepts bytes p
        → result.cause ≢ Cause.ReadFault → result.cause ≢ Cause.WriteFault → result.cause ≢ Cause.NoMemory
        → (result.cause ≡ Cause.Done) × (K.written sink.new ≡ Some (before ++ kernel_text p.words (statements_of p))) }

    // Other words are faulty, and nothing is read.
    ensures usage { IsUsage (map string_bytes words.now) → (result.cause ≡ Cause.Usage) ⊎ IsExcused result.cause }
    ensures unread { IsUsage (map string_bytes words.now) → source.new ≡ source.old }

    // All bytes are read, or the one after the last that a text may have.
    ensures read { (c : Command) (bytes : List ℕ) → Spells (map string_bytes words.now) c → S.left source.old ≡ Some bytes → IsRead bytes (S.left source.new) result.cause }

    // Whatever the answer is, a fault and want of memory too, at most 1,048,577 bytes are taken from the source.
    ensures bounded { IsBounded (S.left source.old) (S.left source.new) }

    // When each other cause comes.
    ensures too_large { (c : Command) (bytes : List ℕ) → Spells (map string_bytes words.now) c → S.left source.old ≡ Some bytes → text_limit < length bytes
        → (result.cause ≡ Cause.TooLarge (text_limit + 1)) ⊎ IsExcused result.cause }
    ensures refused { (c : Command) (bytes : List ℕ) (fault : Fault) → Spells (map string_bytes words.now) c → S.left source.old ≡ Some bytes → length bytes ≤ text_limit → IsRefused bytes fault
        → (result.cause ≡ Cause.Refused fault) ⊎ IsExcused result.cause }
    ensures accepted { (budget : ℕ) (bytes : List ℕ) (p : Program) → AsksAll (map string_bytes words.now) budget → S.left source.old ≡ Some bytes → length bytes ≤ text_limit → Accepts bytes p
        → (result.cause ≡ (all_answer (kernel_of p) budget).0) ⊎ IsExcused result.cause }
    ensures accepted_run { (budget : ℕ) (bytes : List ℕ) (p : Program) → AsksRun (map string_bytes words.now) budget → S.left source.old ≡ Some bytes → length bytes ≤ text_limit → Accepts bytes p
        → (result.cause ≡ (run_answer (kernel_of p) budget).0) ⊎ IsExcused result.cause }
    ensures accepted_best { (workers budget : ℕ) (bytes : List ℕ) (p : Program) → AsksBest (map string_bytes words.now) workers budget → S.left source.old ≡ Some bytes → length bytes ≤ text_limit → Accepts bytes p
        → ((a : BestAnswer) × IsBestAnswer p workers budget a × (result.cause ≡ best_cause a)) ⊎ IsExcused result.cause }

    // Faults come only where they were counted, and before the writing nothing is written.
    ensures read_fault { result.cause ≡ Cause.ReadFault → Rose (S.faults source.old) (S.faults source.new) }
    ensures write_fault { result.cause ≡ Cause.WriteFault → Rose (K.faults sink.old) (K.faults sink.new) }
    ensures silent { (result.cause ≡ Cause.ReadFault) ⊎ (result.cause ≡ Cause.NoMemory) → Appends (K.written sink.old) (K.written sink.new) [] }
{
    let Plan { cause, reply } = plan_words(rt, alloc, words, source, gate);
    finish(cause, reply.as_slice(), sink)
}
