//! From the tree of a program to its kernel: the loop over what is left to be done.
ghost use Rattle.std.specs.Prelude.{◌≡◌, OnOk, IfOk};
ghost use Rattle.oz_language.specs.Translation.{kernel_of};
ghost use Rattle.oz_syntax.specs.View.{view};
ghost use Rattle.kernel_writer.specs.Tasks.{state_of, done, all_done, outcome};

use crate::phrases::translate_phrase;
use crate::statements::references;
use kernel_bodies::{
    alternatives, each, gather, handled, remaining_arms, remaining_clauses, valued_last,
};
use kernel_relations::relation;
use kernel_values::{chain, filled, list};
use kernel_writer::{Goal, Task, Writer};
use oz_base::Words;
use oz_language::Kernel;
use oz_syntax::Phrase;
use std::alloc::{AllocError, Global};

/// One task.
fn perform<'a>(writer: &mut Writer<'a>, words: &Words, next: Task<'a>) -> Result<(), AllocError>
    ensures { OnOk result (outcome words.now writer.new ≡ all_done words.now writer.old.tasks (done words.now next.entry (state_of writer.old))) }
{
    match next {
        Task::Phrase { goal, phrase } => translate_phrase(writer, words, goal, phrase),
        Task::Each { phrases } => each(writer, phrases),
        Task::ValuedLast { name, phrases } => valued_last(writer, name, phrases),
        Task::Filled { names, parts } => filled(writer, names, parts),
        Task::List { name, elements } => list(writer, name, elements),
        Task::Chain { name, elements } => chain(writer, name, elements),
        Task::References { names, side } => references(writer, names, side),
        Task::Relation {
            comparison,
            names,
            left,
            right,
        } => relation(
            writer.alloc,
            &mut writer.output,
            comparison,
            names,
            left,
            right,
        ),
        Task::Arms { goal, arms, last } => remaining_arms(writer, goal, arms, last),
        Task::Clauses {
            goal,
            subject,
            clauses,
            last,
        } => remaining_clauses(writer, words, goal, subject, clauses, last),
        Task::Handled { clauses } => handled(writer, clauses),
        Task::Alternatives {
            goal,
            bodies,
            phrases,
        } => alternatives(writer, goal, bodies, phrases),
        Task::Gather {
            goal,
            bodies,
            phrases,
        } => gather(writer, goal, bodies, phrases),
        Task::Statement { statement } => writer.output.push(statement),
        Task::Begin => writer.begin(),
        Task::Close { closing } => writer.close(closing),
    }
}

/// All that is left to be done. There is no want of turns: no memory holds a program with 2^64 tasks.
fn perform_all<'a>(writer: &mut Writer<'a>, words: &Words) -> Result<(), AllocError>
    ensures { OnOk result (state_of writer.new ≡ outcome words.now writer.old) }
{
    'tasks: for _ in 0..u64::MAX {
        let Some(next) = writer.tasks.pop() else {
            return Ok(());
        };
        perform(writer, words, next)?;
    }
    Err(AllocError)
}

/// The kernel of a program: its words, its statements numbered, and its body. An error is want of memory, or of numbers: 2^32
/// statements have one each, and so have 2^32 - 2 identifiers that the translation makes.
#[tactic(auto, unfolding(oz_language::specs::Translation::kernel_of))]
pub fn translate(alloc: Global, words: Words, phrase: &Phrase) -> Result<Kernel, AllocError>
    ensures { IfOk result (λ kernel. kernel ≡ kernel_of (record { words = words; phrase = view phrase.now })) }
{
    let mut writer = Writer::new(alloc);
    writer.put(Task::Phrase {
        goal: Goal::Statement,
        phrase,
    })?;
    perform_all(&mut writer, &words)?;
    Ok(Kernel {
        words,
        statements: writer.output.statements,
        body: writer.output.body,
    })
}
