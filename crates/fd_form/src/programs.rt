//! Programs that are finite-domain scripts.
ghost use Rattle.std.specs.Prelude.{◌≡◌, [], ◌∷◌, Some, None, IfOk, MatchOption};
ghost use Rattle.std.specs.List.{list_all};
ghost use Rattle.oz_language.specs.Grammar.{body, more, nothing, of_list};
ghost use Rattle.oz_language.specs.Refusals.{contains};
ghost use Rattle.oz_syntax.specs.View.{view, views};
ghost use Rattle.fd_form.specs.FdScripts.{are_apart, are_fields, bare_variable, fd_form, in_body, in_program, with_record};
ghost use Rattle.fd_form.specs.Parts.{each, fd_word, script_word};
ghost use Rattle.fd_form.specs.Steps.{answer_in, body_by, procedure_by, root_by, root_in, two_of};

use crate::lists::{one_of, two_of};
use crate::names::{FD, SCRIPT, is_named};
use crate::records::record_of;
use crate::script::FdScript;
use crate::statements::stated;
use fd_problems::Problem;
use kernel_output::split;
use kernel_patterns::unzipped;
use oz_base::{Sequence, Tally, Words};
use oz_language::{Connective, Constant, Literal};
use oz_syntax::Phrase;
use simple_text::{form_of, is_bars};
use std::alloc::{AllocError, Global};

/// The name of a variable that stands alone.
fn bare_variable(declaration: &Phrase) -> Option<u32>
    ensures { result ≡ bare_variable (view declaration.now) }
{
    match declaration {
        Phrase::Var { name, .. } => Some(*name),
        _ => None,
    }
}

/// The names that declarations declare, if each is a variable alone.
fn declared(alloc: Global, declarations: &[Phrase]) -> Result<Option<Sequence<u32>>, AllocError>
    ensures { IfOk result (λ names. names ≡ each bare_variable (of_list (views declarations.now))) }
{
    let mut names = Sequence::new(alloc);
    'declarations: for declaration in declarations {
        let Some(name) = bare_variable(declaration) else {
            return Ok(None);
        };
        names.push(name)?;
    }
    Ok(Some(names))
}

/// Whether no name is that of the answer, `Script` or `FD`, nor comes twice.
fn are_apart(alloc: Global, root: u32, names: &[u32]) -> Result<bool, AllocError>
    ensures { IfOk result (λ apart. apart ≡ are_apart (root ∷ script_word ∷ fd_word ∷ []) names.now) }
{
    let mut seen = Tally::new(alloc);
    seen.push(FD)?;
    seen.push(SCRIPT)?;
    seen.push(root)?;
    'names: for name in names {
        if seen.has(*name) {
            return Ok(false);
        }
        seen.push(*name)?;
    }
    Ok(true)
}

/// Whether a name is one of these.
#[tactic(auto, using(crate::proofs::PlaceLaws::turned))]
fn has_name(names: &[u32], name: u32) -> bool
    ensures { result ≡ contains names.now name }
{
    names.contains(&name)
}

/// Whether each of the others is one of these names.
fn has_each(names: &[u32], others: &[u32]) -> bool
    ensures { result ≡ list_all (contains names.now) others.now }
{
    others.iter().all(|name| has_name(names, *name))
}

/// Whether each of the variables is a field, once.
fn are_fields(names: &[u32], fields: &[u32]) -> bool
    ensures { result ≡ are_fields names.now fields.now }
{
    names.len() == fields.len() && has_each(fields, names)
}

/// The script of a body with these names and this record, if there is one.
fn with_record(
    alloc: Global,
    words: &Words,
    root: u32,
    statements: &[Phrase],
    names: &[u32],
    label: Literal,
    fields: Sequence<(Constant, u32)>,
) -> Result<Option<FdScript>, AllocError>
    ensures { IfOk result (λ script. script ≡ with_record words.now root (of_list (views statements.now)) (names.now, (label, fields))) }
{
    let (features, variables) = unzipped(alloc, fields)?;
    if !are_apart(alloc, root, names)? {
        return Ok(None);
    }
    if !are_fields(names, variables.as_slice()) {
        return Ok(None);
    }
    if is_bars(form_of(words, label, features.as_slice())) {
        return Ok(None);
    }
    let Some((items, distribution)) = stated(alloc, root, variables.as_slice(), statements)? else {
        return Ok(None);
    };
    let problem = Problem {
        count: variables.len(),
        items,
        distribution,
    };
    Ok(Some(FdScript {
        label,
        features,
        variables,
        problem,
    }))
}

/// The record of an equation whose left side is the answer.
fn answer_in(root: u32, statement: &Phrase) -> Option<&Phrase>
    ensures { MatchOption result (answer_in root (view statement.now) ≡ None) (λ found. answer_in root (view statement.now) ≡ Some (view found.now)) }
{
    match statement {
        Phrase::Connected {
            connective: Connective::Equates,
            left,
            right,
        } => {
            if is_named(root, left) {
                Some(right)
            } else {
                None
            }
        }
        _ => None,
    }
}

/// The script of a body with these declarations, with this phrase for the answer, and with these statements behind it.
fn with_answer(
    alloc: Global,
    words: &Words,
    root: u32,
    declarations: &[Phrase],
    answer: &Phrase,
    statements: &[Phrase],
) -> Result<Option<FdScript>, AllocError>
    ensures { IfOk result (λ script. script ≡ body_by words.now root (of_list (views declarations.now)) (of_list (views statements.now)) (Some (view answer.now))) }
{
    let Some(names) = declared(alloc, declarations)? else {
        return Ok(None);
    };
    let Some((label, fields)) = record_of(alloc, words, answer)? else {
        return Ok(None);
    };
    with_record(
        alloc,
        words,
        root,
        statements,
        names.as_slice(),
        label,
        fields,
    )
}

/// The script of a body with these declarations and statements, of which the first has the record.
#[tactic(auto, using(crate::proofs::ProgramLaws::in_first))]
fn in_statements(
    alloc: Global,
    words: &Words,
    root: u32,
    declarations: &[Phrase],
    statements: &[Phrase],
) -> Result<Option<FdScript>, AllocError>
    ensures { IfOk result (λ script. script ≡ in_body words.now root (body (of_list (views declarations.now)) (of_list (views statements.now)))) }
{
    let Some((first, others)) = split(statements) else {
        return Ok(None);
    };
    match answer_in(root, first) {
        Some(answer) => with_answer(alloc, words, root, declarations, answer, others),
        None => Ok(None),
    }
}

/// The script of the body of a procedure whose parameter is `root`, if there is one.
fn in_body(
    alloc: Global,
    words: &Words,
    root: u32,
    body: &Phrase,
) -> Result<Option<FdScript>, AllocError>
    ensures { IfOk result (λ script. script ≡ in_body words.now root (view body.now)) }
{
    match body {
        Phrase::Body {
            declarations,
            phrases,
        } => in_statements(alloc, words, root, declarations, phrases),
        _ => Ok(None),
    }
}

/// The parameter of a script, by the names in its head.
fn root_among(names: &[Phrase]) -> Option<u32>
    ensures { result ≡ root_by (two_of (of_list (views names.now))) }
{
    let (name, root) = two_of(names)?;
    let name = bare_variable(name)?;
    let root = bare_variable(root)?;
    if name == SCRIPT && root != FD {
        Some(root)
    } else {
        None
    }
}

/// The parameter in the head of a script.
fn root_in(head: &Phrase) -> Option<u32>
    ensures { result ≡ root_in (view head.now) }
{
    match head {
        Phrase::Head { names, .. } => root_among(names),
        _ => None,
    }
}

/// The script of a procedure with this head and this body, if it is one.
fn in_procedure(
    alloc: Global,
    words: &Words,
    head: &Phrase,
    body: &Phrase,
) -> Result<Option<FdScript>, AllocError>
    ensures { IfOk result (λ script. script ≡ procedure_by words.now (view body.now) (root_in (view head.now))) }
{
    match root_in(head) {
        Some(root) => in_body(alloc, words, root, body),
        None => Ok(None),
    }
}

/// The script that a statement is, if it is one.
#[tactic(auto, using(crate::proofs::ProgramLaws::in_one))]
fn in_statement(
    alloc: Global,
    words: &Words,
    statement: &Phrase,
) -> Result<Option<FdScript>, AllocError>
    ensures { IfOk result (λ script. script ≡ in_program words.now (body nothing (more (view statement.now) nothing))) }
{
    match statement {
        Phrase::Proc { head, body, .. } => in_procedure(alloc, words, head, body),
        _ => Ok(None),
    }
}

/// The script of a program with these statements, if it is one.
#[tactic(auto, using(crate::proofs::ProgramLaws::in_alone))]
fn in_statements_alone(
    alloc: Global,
    words: &Words,
    statements: &[Phrase],
) -> Result<Option<FdScript>, AllocError>
    ensures { IfOk result (λ script. script ≡ in_program words.now (body nothing (of_list (views statements.now)))) }
{
    match one_of(statements) {
        Some(statement) => in_statement(alloc, words, statement),
        None => Ok(None),
    }
}

/// The script of a program with these declarations and statements, if it is one.
fn in_text(
    alloc: Global,
    words: &Words,
    declarations: &[Phrase],
    statements: &[Phrase],
) -> Result<Option<FdScript>, AllocError>
    ensures { IfOk result (λ script. script ≡ in_program words.now (body (of_list (views declarations.now)) (of_list (views statements.now)))) }
{
    match split(declarations) {
        Some(_) => Ok(None),
        None => in_statements_alone(alloc, words, statements),
    }
}

/// The script of a program, if it is one.
fn in_program(
    alloc: Global,
    words: &Words,
    program: &Phrase,
) -> Result<Option<FdScript>, AllocError>
    ensures { IfOk result (λ script. script ≡ in_program words.now (view program.now)) }
{
    match program {
        Phrase::Body {
            declarations,
            phrases,
        } => in_text(alloc, words, declarations, phrases),
        _ => Ok(None),
    }
}

/// The finite-domain script that a program is, or nothing where it has not the form. An error is want of memory, or of a number that
/// is too large for a relation; a program that was read has none.
#[tactic(auto, unfolding(crate::specs::FdScripts::fd_form))]
pub fn fd_form(
    alloc: Global,
    words: &Words,
    phrase: &Phrase,
) -> Result<Option<FdScript>, AllocError>
    ensures { IfOk result (λ script. script ≡ fd_form (record { words = words.now; phrase = view phrase.now })) }
{
    in_program(alloc, words, phrase)
}
