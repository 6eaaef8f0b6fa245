//! What phrases declare.
ghost use Rattle.std.specs.Prelude.{◌≡◌, ◌++◌, [], OnOk, IfOk};
ghost use Rattle.oz_language.specs.Grammar.{of_list};
ghost use Rattle.oz_language.specs.Translation.{declared};
ghost use Rattle.oz_language.specs.Refusals.{name_in, declared_by};
ghost use Rattle.oz_syntax.specs.View.{view, views};
ghost use Rattle.kernel_output.specs.Declares.{variable_name, first_time, seen_with};

use oz_base::{Sequence, Tally};
use oz_language::{Connective, Identifier};
use oz_syntax::Phrase;
use std::alloc::{AllocError, Global};

/// The variable that the phrase is.
fn variable(phrase: &Phrase) -> Option<u32>
    ensures { result ≡ variable_name (view phrase.now) }
{
    match phrase {
        Phrase::Var { name, .. } => Some(*name),
        _ => None,
    }
}

/// The name that a head begins with.
pub fn name_in(head: &Phrase) -> Option<u32>
    ensures { result ≡ name_in (view head.now) }
{
    match head {
        Phrase::Head { names, .. } => variable(names.first()?),
        _ => None,
    }
}

/// The variable that the phrase declares: itself, the left side of an equation, or the name of a procedure or a function.
fn declared_by(phrase: &Phrase) -> Option<u32>
    ensures { result ≡ declared_by (view phrase.now) }
{
    match phrase {
        Phrase::Var { name, .. } => Some(*name),
        Phrase::Connected {
            connective: Connective::Equates,
            left,
            ..
        } => variable(left),
        Phrase::Proc { head, .. } | Phrase::Fun { head, .. } => name_in(head),
        _ => None,
    }
}

/// Adds what a phrase declares, if it is declared for the first time.
fn declare(
    names: &mut Sequence<Identifier>,
    seen: &mut Tally,
    name: Option<u32>,
) -> Result<(), AllocError>
    ensures names { OnOk result (names.new ≡ names.old ++ first_time seen.old name) }
    ensures seen { OnOk result (seen.new ≡ seen_with name seen.old) }
{
    let Some(name) = name else {
        return Ok(());
    };
    if !seen.has(name) {
        names.push(Identifier::Word(name))?;
        seen.push(name)?;
    }
    Ok(())
}

/// The variables that phrases declare, each once, in the order of first declaration. What stands in `seen` before is
/// forgotten.
pub fn declared(
    alloc: Global,
    seen: &mut Tally,
    phrases: &[Phrase],
) -> Result<Sequence<Identifier>, AllocError>
    ensures { IfOk result (λ names. names ≡ declared [] (of_list (views phrases.now))) }
{
    seen.leave(0);
    let mut names = Sequence::new(alloc);
    'phrases: for phrase in phrases {
        declare(&mut names, seen, declared_by(phrase))?;
    }
    Ok(names)
}
