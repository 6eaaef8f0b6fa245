//! What phrases declare, the variables in them, and those that stand twice.
ghost use Rattle.std.specs.Prelude.{◌≡◌, ◌++◌, ◌∷◌, [], OnOk, IfOk, nat_eq, if◌then◌else◌};
ghost use Rattle.std.specs.List.{list_any};
ghost use Rattle.oz_language.specs.Grammar.{Phrase as Tree, connected, more, nothing, of_list};
ghost use Rattle.oz_language.specs.Refusals.{declared_by, declaring, name_faults, name_in, not_linear, parameters_in, variables_in, variables_in_each, with_name, with_names};
ghost use Rattle.oz_syntax.specs.View.{view, views};
ghost use Rattle.oz_scope.specs.Declares.{name_of};
ghost use Rattle.oz_scope.specs.Keeps.{kept};

use crate::found::Found;
use oz_base::Tally;
use oz_language::{Connective, Fault, RefusalKind};
use oz_syntax::Phrase;
use std::alloc::{AllocError, Global};

/// The variable that the phrase is.
fn variable(phrase: &Phrase) -> Option<u32>
    ensures { result ≡ name_of (more (view phrase.now) nothing) }
{
    match phrase {
        Phrase::Var { name, .. } => Some(*name),
        _ => None,
    }
}

/// The variable that phrases begin with.
fn name_of(phrases: &[Phrase]) -> Option<u32>
    ensures { result ≡ name_of (of_list (views phrases.now)) }
{
    variable(phrases.first()?)
}

/// The name in the head of a procedure.
#[tactic(auto, using(crate::proofs::Naming::head_name))]
fn name_in(head: &Phrase) -> Option<u32>
    ensures { result ≡ name_in (view head.now) }
{
    match head {
        Phrase::Head { names, .. } => name_of(names),
        _ => None,
    }
}

/// The variable that a statement with this left side declares.
#[tactic(auto, using(crate::proofs::Naming::equation_declares))]
fn declared_on_left(connective: Connective, left: &Phrase) -> Option<u32>
    ensures { (right : Tree) → result ≡ declared_by (connected connective (view left.now) right) }
{
    match connective {
        Connective::Equates => variable(left),
        _ => None,
    }
}

/// The variable that the phrase declares.
fn declared_by(phrase: &Phrase) -> Option<u32>
    ensures { result ≡ declared_by (view phrase.now) }
{
    match phrase {
        Phrase::Var { name, .. } => Some(*name),
        Phrase::Connected {
            connective,
            left,
            ..
        } => declared_on_left(*connective, left),
        Phrase::Proc { head, .. } => name_in(head),
        Phrase::Fun { head, .. } => name_in(head),
        _ => None,
    }
}

/// Puts what the phrase declares into the scope.
fn declare_one(scope: &mut Tally, phrase: &Phrase) -> Result<(), AllocError>
    ensures { OnOk result (scope.new ≡ with_name (declared_by (view phrase.now)) scope.old) }
{
    match declared_by(phrase) {
        Some(name) => scope.push(name),
        None => Ok(()),
    }
}

/// Puts what the phrases declare into the scope, that of the first on top.
pub fn declare(scope: &mut Tally, phrases: &[Phrase]) -> Result<(), AllocError>
    ensures { OnOk result (scope.new ≡ declaring (of_list (views phrases.now)) scope.old) }
{
    let mut rest = phrases;
    'phrases: while let Some((last, others)) = rest.split_last() {
        declare_one(scope, last)?;
        rest = others;
    }
    Ok(())
}

/// Puts the variables of a pattern to those before them, each with its place.
#[cycle(variables)]
pub fn add_variables(variables: &mut Vec<(u32, usize)>, phrase: &Phrase) -> Result<(), AllocError>
    ensures { OnOk result (variables.new.items ≡ variables.old.items ++ variables_in (view phrase.now)) }
{
    match phrase {
        Phrase::Var { name, at } => {
            variables.push((*name, *at))?;
            Ok(())
        }
        Phrase::Record { fields, .. } => add_variables_of_each(variables, fields),
        Phrase::Keyed { value, .. } => add_variables(variables, value),
        Phrase::List { elements, .. } => add_variables_of_each(variables, elements),
        Phrase::Paren { inner, .. } => add_variables_of_each(variables, inner),
        Phrase::Bars { elements } => add_variables_of_each(variables, elements),
        Phrase::Hashes { elements } => add_variables_of_each(variables, elements),
        _ => Ok(()),
    }
}

/// Puts the variables in phrases, one behind the other, to those before them.
#[cycle(variables)]
pub fn add_variables_of_each(
    variables: &mut Vec<(u32, usize)>,
    phrases: &[Phrase],
) -> Result<(), AllocError>
    ensures { OnOk result (variables.new.items ≡ variables.old.items ++ variables_in_each (of_list (views phrases.now))) }
{
    'phrases: for phrase in phrases {
        add_variables(variables, phrase)?;
    }
    Ok(())
}

/// Puts the parameters of a head to the variables before them, each with its place.
pub fn add_parameters(variables: &mut Vec<(u32, usize)>, head: &Phrase) -> Result<(), AllocError>
    ensures { OnOk result (variables.new.items ≡ variables.old.items ++ parameters_in (view head.now)) }
{
    match head {
        Phrase::Head { names, .. } => match names.split_first() {
            Some((_, parameters)) => add_variables_of_each(variables, parameters),
            None => Ok(()),
        },
        _ => Ok(()),
    }
}

/// Puts the variables into the scope, the first on top.
#[tactic(auto, using(crate::proofs::Naming::entered_last))]
pub fn enter(scope: &mut Tally, variables: &[(u32, usize)]) -> Result<(), AllocError>
    ensures { OnOk result (scope.new ≡ with_names variables.now scope.old) }
{
    let mut rest = variables;
    'variables: while let Some(((name, _), others)) = rest.split_last() {
        scope.push(*name)?;
        rest = others;
    }
    Ok(())
}

/// A name with its place, after those that stand before it.
fn meet_name(found: &mut Found, seen: &mut Tally, name: u32, at: usize) -> Result<(), AllocError>
    ensures found { OnOk result (found.new ≡ kept (if list_any (nat_eq name) seen.old then not_linear at ∷ [] else []) found.old) }
    ensures seen { OnOk result (seen.new ≡ name ∷ seen.old) }
{
    if seen.has(name) {
        found.meet(Fault {
            kind: RefusalKind::Linear,
            at,
        });
    }
    seen.push(name)
}

/// Meets each variable that stands before among the same. What stands in `seen` before is forgotten.
#[tactic(auto, using(crate::proofs::Keeping::kept_append))]
pub fn meet_repeated_names(
    found: &mut Found,
    seen: &mut Tally,
    variables: &[(u32, usize)],
) -> Result<(), AllocError>
    ensures { OnOk result (found.new ≡ kept (name_faults variables.now) found.old) }
{
    seen.leave(0);
    'variables: for (name, at) in variables {
        meet_name(found, seen, *name, *at)?;
    }
    Ok(())
}
