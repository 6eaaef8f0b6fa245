//! Phrases, as statements or for the value of a name, by what they are.
ghost use Rattle.std.specs.Prelude.{◌≡◌, OnOk};
ghost use Rattle.oz_language.specs.Translation.{statement, value, translated};
ghost use Rattle.oz_syntax.specs.View.{view};
ghost use Rattle.kernel_writer.specs.Goals.{goal_of};
ghost use Rattle.kernel_writer.specs.Tasks.{outcome, outcome_with};

use crate::statements::simple;
use kernel_bodies::{body, construct, valued_body};
use kernel_values::{anything, inner_value, operation, record, string};
use kernel_writer::{Goal, Task, Writer};
use oz_base::Words;
use oz_language::{Constant, Identifier};
use oz_syntax::Phrase;
use std::alloc::AllocError;

/// A phrase, as a statement or for the value of a name.
pub fn translate_phrase<'a>(
    writer: &mut Writer<'a>,
    words: &Words,
    goal: Goal,
    phrase: &'a Phrase,
) -> Result<(), AllocError>
    ensures { OnOk result (outcome words.now writer.new ≡ outcome_with words.now writer.old (translated words.now (goal_of goal) writer.old.numbers.next (view phrase.now))) }
{
    match goal {
        Goal::Statement => statement(writer, words, phrase),
        Goal::Value(name) => value(writer, words, name, phrase),
    }
}

/// Makes a name the value of a phrase.
fn value<'a>(
    writer: &mut Writer<'a>,
    words: &Words,
    name: Identifier,
    phrase: &'a Phrase,
) -> Result<(), AllocError>
    ensures { OnOk result (outcome words.now writer.new ≡ outcome_with words.now writer.old (translated words.now (value name) writer.old.numbers.next (view phrase.now))) }
{
    match phrase {
        Phrase::Var { name: other, .. } => writer.equate(name, Identifier::Word(*other)),
        Phrase::Any { .. } => anything(writer, name),
        Phrase::Int { value, .. } => writer.bind(name, Constant::Int(*value)),
        Phrase::String { text, .. } => string(writer, words, name, *text),
        Phrase::Literal { literal, .. } => writer.bind(name, Constant::Literal(*literal)),
        Phrase::Record { label, fields, .. } => record(writer, words, name, *label, fields),
        Phrase::Keyed { value, .. } => writer.value_of(name, value),
        Phrase::List { elements, .. } => writer.later(Task::List { name, elements }),
        Phrase::Paren { inner, .. } => {
            inner_value(writer, name, inner)?;
            Ok(())
        }
        Phrase::Binary { .. }
        | Phrase::Bars { .. }
        | Phrase::Hashes { .. }
        | Phrase::Select { .. }
        | Phrase::Access { .. } => operation(writer, words, name, phrase),
        Phrase::Skip
        | Phrase::Fail { .. }
        | Phrase::Raise { .. }
        | Phrase::Connected { .. }
        | Phrase::Relate { .. }
        | Phrase::Call { .. }
        | Phrase::Proc { .. }
        | Phrase::Fun { .. } => simple(writer, words, Goal::Value(name), phrase),
        Phrase::Local { .. }
        | Phrase::Thread { .. }
        | Phrase::Choice { .. }
        | Phrase::If { .. }
        | Phrase::IfElse { .. }
        | Phrase::Case { .. }
        | Phrase::CaseElse { .. }
        | Phrase::Try { .. } => construct(writer, words, Goal::Value(name), phrase),
        Phrase::Body {
            declarations,
            phrases,
        } => valued_body(writer, name, declarations, phrases),
        Phrase::Dollar | Phrase::Head { .. } | Phrase::Arm { .. } | Phrase::Clause { .. } => {
            writer.nothing()
        }
    }
}

/// A phrase as a statement. An expression alone, as it is declared, is none.
fn statement<'a>(
    writer: &mut Writer<'a>,
    words: &Words,
    phrase: &'a Phrase,
) -> Result<(), AllocError>
    ensures { OnOk result (outcome words.now writer.new ≡ outcome_with words.now writer.old (translated words.now statement writer.old.numbers.next (view phrase.now))) }
{
    match phrase {
        Phrase::Paren { inner, .. } => writer.later(Task::Each { phrases: inner }),
        Phrase::Skip
        | Phrase::Fail { .. }
        | Phrase::Raise { .. }
        | Phrase::Connected { .. }
        | Phrase::Relate { .. }
        | Phrase::Call { .. }
        | Phrase::Proc { .. }
        | Phrase::Fun { .. } => simple(writer, words, Goal::Statement, phrase),
        Phrase::Local { .. }
        | Phrase::Thread { .. }
        | Phrase::Choice { .. }
        | Phrase::If { .. }
        | Phrase::IfElse { .. }
        | Phrase::Case { .. }
        | Phrase::CaseElse { .. }
        | Phrase::Try { .. } => construct(writer, words, Goal::Statement, phrase),
        Phrase::Body {
            declarations,
            phrases,
        } => body(writer, declarations, phrases),
        Phrase::Var { .. }
        | Phrase::Any { .. }
        | Phrase::Int { .. }
        | Phrase::String { .. }
        | Phrase::Literal { .. }
        | Phrase::Record { .. }
        | Phrase::Keyed { .. }
        | Phrase::List { .. }
        | Phrase::Binary { .. }
        | Phrase::Bars { .. }
        | Phrase::Hashes { .. }
        | Phrase::Select { .. }
        | Phrase::Access { .. }
        | Phrase::Dollar
        | Phrase::Head { .. }
        | Phrase::Arm { .. }
        | Phrase::Clause { .. } => writer.nothing(),
    }
}
