//! What is left to print, on a stack.
ghost use Rattle.std.specs.Prelude.{◌≡◌, ◌∷◌, ◌++◌, ℕ, List, [], map, codes, OnOk, IfOk};
ghost use Rattle.oz_language.specs.declared.kernel.Statement.{Statement};
ghost use Rattle.kernel_form.specs.Entries.{left_of, printed_now, found_in, left_behind, if_any, bodied, branched, caught, catch_text, fixed, lined};
ghost use Rattle.kernel_form.specs.Heads.{block, branches, attempts, left_in};
ghost use Rattle.kernel_form.specs.Pending.{Leads, Follows};

use crate::names::add_name;
use oz_base::{Sequence, Stack, Words};
use oz_language::{Identifier, Statement};
use std::alloc::{AllocError, Global};

/// A part of the text that is left to print.
#[derive(Drop)]
pub enum Entry<'a> {
    Text(&'a [u8]),
    /// The statements of a body from here on: the gap stands before the first, and a blank before each further one.
    Body {
        gap: &'a [u8],
        numbers: &'a [u32],
    },
    /// The alternatives of a choice from here on: the gap stands before the first, and ` [] ` before each further one.
    Alternatives {
        gap: &'a [u8],
        bodies: &'a [Sequence<u32>],
    },
    /// ` catch X then `
    Catch(Identifier),
    /// Statements, each with the end of a line behind it.
    Lines(&'a [u32]),
}

// The first statement of a body is printed next.
fn enter_body<'a>(
    gap: &[u8],
    numbers: &'a [u32],
    pending: &mut Stack<Entry<'a>>,
    out: &mut Vec<u8>,
) -> Result<Option<u32>, AllocError>
    ensures bytes { OnOk result (out.new.items ≡ out.old.items ++ if_any numbers.now gap.now []) }
    ensures pending { OnOk result (map left_of pending.new ≡ left_behind (bodied gap.now numbers.now) ++ map left_of pending.old) }
    ensures found { IfOk result (λ found. found ≡ found_in (bodied gap.now numbers.now)) }
{
    match numbers {
        [] => Ok(None),
        [first, further @ ..] => {
            out.extend_from_slice(gap)?;
            pending.push(Entry::Body {
                gap: b" ",
                numbers: further,
            })?;
            Ok(Some(*first))
        }
    }
}

// The body of the first alternative is what comes next.
fn enter_alternatives<'a>(
    gap: &[u8],
    bodies: &'a [Sequence<u32>],
    pending: &mut Stack<Entry<'a>>,
    out: &mut Vec<u8>,
) -> Result<Option<u32>, AllocError>
    ensures bytes { OnOk result (out.new.items ≡ out.old.items ++ if_any bodies.now gap.now []) }
    ensures pending { OnOk result (map left_of pending.new ≡ left_behind (branched gap.now bodies.now) ++ map left_of pending.old) }
    ensures found { IfOk result (λ found. found ≡ found_in (branched gap.now bodies.now)) }
{
    match bodies {
        [] => Ok(None),
        [first, further @ ..] => {
            out.extend_from_slice(gap)?;
            pending.push(Entry::Alternatives {
                gap: b" [] ",
                bodies: further,
            })?;
            pending.push(Entry::Body {
                gap: b"",
                numbers: first.as_slice(),
            })?;
            Ok(None)
        }
    }
}

// The first statement is printed next, on a line of its own.
fn enter_lines<'a>(
    numbers: &'a [u32],
    pending: &mut Stack<Entry<'a>>,
) -> Result<Option<u32>, AllocError>
    ensures pending { OnOk result (map left_of pending.new ≡ left_behind (lined numbers.now) ++ map left_of pending.old) }
    ensures found { IfOk result (λ found. found ≡ found_in (lined numbers.now)) }
{
    match numbers {
        [] => Ok(None),
        [first, further @ ..] => {
            pending.push(Entry::Lines(further))?;
            pending.push(Entry::Text(b"\n"))?;
            Ok(Some(*first))
        }
    }
}

// ` catch X then `
fn add_catch(
    alloc: Global,
    words: &Words,
    exception: Identifier,
    out: &mut Vec<u8>,
) -> Result<(), AllocError>
    ensures { OnOk result (out.new.items ≡ out.old.items ++ catch_text words.now exception) }
{
    out.extend_from_slice(b" catch ")?;
    add_name(alloc, words, exception, out)?;
    out.extend_from_slice(b" then ")
}

// Prints a text, or a gap, and gives the number of the statement that stands behind it, if one does.
fn enter<'a>(
    alloc: Global,
    words: &Words,
    entry: Entry<'a>,
    pending: &mut Stack<Entry<'a>>,
    out: &mut Vec<u8>,
) -> Result<Option<u32>, AllocError>
    ensures bytes { OnOk result (out.new.items ≡ out.old.items ++ printed_now words.now (left_of entry.entry)) }
    ensures pending { OnOk result (map left_of pending.new ≡ left_behind (left_of entry.entry) ++ map left_of pending.old) }
    ensures found { IfOk result (λ found. found ≡ found_in (left_of entry.entry)) }
{
    match entry {
        Entry::Text(text) => {
            out.extend_from_slice(text)?;
            Ok(None)
        }
        Entry::Body { gap, numbers } => enter_body(gap, numbers, pending, out),
        Entry::Alternatives { gap, bodies } => enter_alternatives(gap, bodies, pending, out),
        Entry::Catch(exception) => {
            add_catch(alloc, words, exception, out)?;
            Ok(None)
        }
        Entry::Lines(numbers) => enter_lines(numbers, pending),
    }
}

/// Prints up to the next statement, and gives its number. There is none at the end of the text.
pub fn next_statement(
    alloc: Global,
    words: &Words,
    pending: &mut Stack<Entry>,
    out: &mut Vec<u8>,
) -> Result<Option<u32>, AllocError>
    ensures { (all : List Statement) (text : List ℕ) → Leads words.now all (map left_of pending.old) out.old.items text → IfOk result (λ found. Follows words.now all found (map left_of pending.new) out.new.items text) }
{
    'entries: while let Some(entry) = pending.pop() {
        if let Some(number) = enter(alloc, words, entry, pending, out)? {
            return Ok(Some(number));
        }
    }
    Ok(None)
}

fn push_block<'a>(body: &'a [u32], pending: &mut Stack<Entry<'a>>) -> Result<(), AllocError>
    ensures { OnOk result (map left_of pending.new ≡ block body.now ++ map left_of pending.old) }
{
    pending.push(Entry::Text(b" end"))?;
    pending.push(Entry::Body {
        gap: b"",
        numbers: body,
    })
}

fn push_branches<'a>(
    accepted: &'a [u32],
    otherwise: &'a [u32],
    pending: &mut Stack<Entry<'a>>,
) -> Result<(), AllocError>
    ensures { OnOk result (map left_of pending.new ≡ branches accepted.now otherwise.now ++ map left_of pending.old) }
{
    push_block(otherwise, pending)?;
    pending.push(Entry::Text(b" else "))?;
    pending.push(Entry::Body {
        gap: b"",
        numbers: accepted,
    })
}

fn push_attempt<'a>(
    body: &'a [u32],
    exception: Identifier,
    handler: &'a [u32],
    pending: &mut Stack<Entry<'a>>,
) -> Result<(), AllocError>
    ensures { OnOk result (map left_of pending.new ≡ attempts body.now exception handler.now ++ map left_of pending.old) }
{
    push_block(handler, pending)?;
    pending.push(Entry::Catch(exception))?;
    pending.push(Entry::Body {
        gap: b"",
        numbers: body,
    })
}

fn push_alternatives<'a>(
    bodies: &'a [Sequence<u32>],
    pending: &mut Stack<Entry<'a>>,
) -> Result<(), AllocError>
    ensures { OnOk result (map left_of pending.new ≡ (branched [] bodies.now ∷ fixed (codes " end") ∷ []) ++ map left_of pending.old) }
{
    pending.push(Entry::Text(b" end"))?;
    pending.push(Entry::Alternatives { gap: b"", bodies })
}

/// Puts the bodies of a statement, and what stands behind them, on the stack.
pub fn push_bodies<'a>(
    statement: &'a Statement,
    pending: &mut Stack<Entry<'a>>,
) -> Result<(), AllocError>
    ensures { OnOk result (map left_of pending.new ≡ left_in statement.now ++ map left_of pending.old) }
{
    match statement {
        Statement::Local { body, .. } => push_block(body.as_slice(), pending),
        Statement::BindProcedure { body, .. } => push_block(body.as_slice(), pending),
        Statement::Choice { alternatives } => push_alternatives(alternatives.as_slice(), pending),
        Statement::If {
            accepted,
            otherwise,
            ..
        } => push_branches(accepted.as_slice(), otherwise.as_slice(), pending),
        Statement::Case {
            accepted,
            otherwise,
            ..
        } => push_branches(accepted.as_slice(), otherwise.as_slice(), pending),
        Statement::Thread { body } => push_block(body.as_slice(), pending),
        Statement::Try {
            body,
            exception,
            handler,
        } => push_attempt(body.as_slice(), *exception, handler.as_slice(), pending),
        Statement::Skip => Ok(()),
        Statement::Fail => Ok(()),
        Statement::Equate { .. } => Ok(()),
        Statement::Bind { .. } => Ok(()),
        Statement::BindRecord { .. } => Ok(()),
        Statement::Call { .. } => Ok(()),
        Statement::NoMatch => Ok(()),
        Statement::Operate { .. } => Ok(()),
        Statement::Raise { .. } => Ok(()),
        Statement::Post { .. } => Ok(()),
        Statement::PostTimes { .. } => Ok(()),
    }
}
