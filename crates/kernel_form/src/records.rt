//! Records of which some fields are printed.
ghost use Rattle.std.specs.Prelude.{◌≡◌, ◌∷◌, ◌++◌, map, OnOk, IfOk};
ghost use Rattle.kernel_form.specs.Fields.{rest_of, gap_text, key_in, next_in, encloses, lead_before, passed_to, end_text, lead_text, passed, is_enclosed, closing, still_open, opening_text, just_opened};

use oz_base::{Stack, Words};
use oz_language::{Constant, Form, Literal};
use simple_text::{add_key, add_literal, is_bars, is_chain};
use std::alloc::{AllocError, Global};

/// A record of which some fields are printed.
#[derive(Drop)]
pub struct Open<'a> {
    pub form: Form,
    /// Those of the fields that are left.
    pub features: &'a [Constant],
    /// The next feature that needs no key.
    pub next: u64,
    /// No field is printed yet.
    pub first: bool,
    /// A `)` stands at its end.
    pub closes: bool,
}

fn gap(form: Form, first: bool) -> &'static [u8]
    ensures { result.now ≡ gap_text form first }
{
    if first {
        return b"";
    }
    match form {
        Form::Bars => b"|",
        Form::Hashes => b"#",
        Form::Other => b" ",
    }
}

// Adds the key of a field in a record of this form, and gives the next feature that needs none.
fn add_key_in(
    alloc: Global,
    words: &Words,
    form: Form,
    feature: Constant,
    next: u64,
    out: &mut Vec<u8>,
) -> Result<u64, AllocError>
    ensures bytes { OnOk result (out.new.items ≡ out.old.items ++ key_in words.now form feature next) }
    ensures next { IfOk result (λ after. after ≡ next_in form feature next) }
{
    if is_chain(form) {
        return Ok(next);
    }
    add_key(alloc, words, feature, next, out)
}

// Adds what stands before the next field of a record. A record with no field left is refused.
fn add_lead_in<'a>(
    alloc: Global,
    words: &Words,
    open: &Open<'a>,
    out: &mut Vec<u8>,
) -> Result<Open<'a>, AllocError>
    ensures bytes { OnOk result (out.new.items ≡ out.old.items ++ lead_before words.now (rest_of open.now) open.now.features.now) }
    ensures passed { IfOk result (λ after. rest_of after ≡ passed_to (rest_of open.now) open.now.features.now) }
{
    let Some((feature, features)) = open.features.split_first() else {
        return Err(AllocError);
    };
    out.extend_from_slice(gap(open.form, open.first))?;
    let next = add_key_in(alloc, words, open.form, *feature, open.next, out)?;
    Ok(Open {
        form: open.form,
        features,
        next,
        first: false,
        closes: open.closes,
    })
}

/// Adds what stands before the next field of the innermost record, if one is open.
pub fn add_lead<'a>(
    alloc: Global,
    words: &Words,
    opened: &mut Stack<Open<'a>>,
    out: &mut Vec<u8>,
) -> Result<(), AllocError>
    ensures bytes { OnOk result (out.new.items ≡ out.old.items ++ lead_text words.now (map rest_of opened.old)) }
    ensures passed { OnOk result (map rest_of opened.new ≡ passed (map rest_of opened.old)) }
{
    match opened.pop() {
        None => Ok(()),
        Some(innermost) => {
            let after = add_lead_in(alloc, words, &innermost, out)?;
            opened.push(after)
        }
    }
}

// Whether a field of this form stands in parentheses in a record of the outer form.
fn encloses(outer: Form, first: bool, inner: Form) -> bool
    ensures { result ≡ encloses outer first inner }
{
    match outer {
        Form::Bars => first && is_bars(inner),
        Form::Hashes => is_chain(inner),
        Form::Other => false,
    }
}

// Whether the next field of the innermost record stands in parentheses, if it has this form.
fn is_enclosed(opened: &Stack<Open>, form: Form) -> bool
    ensures { result ≡ is_enclosed (map rest_of opened.now) form }
{
    match opened.top() {
        None => false,
        Some(innermost) => encloses(innermost.form, innermost.first, form),
    }
}

// Adds the parenthesis before a record, and its label.
fn add_opening_text(
    words: &Words,
    label: Literal,
    form: Form,
    enclosed: bool,
    out: &mut Vec<u8>,
) -> Result<(), AllocError>
    ensures { OnOk result (out.new.items ≡ out.old.items ++ opening_text words.now label form enclosed) }
{
    if enclosed {
        out.push(b'(')?;
    }
    if is_chain(form) {
        return Ok(());
    }
    add_literal(words, label, out)?;
    out.push(b'(')?;
    Ok(())
}

/// Begins a record of this form as the next field of the innermost one.
pub fn open_record<'a>(
    alloc: Global,
    words: &Words,
    label: Literal,
    form: Form,
    features: &'a [Constant],
    opened: &mut Stack<Open<'a>>,
    out: &mut Vec<u8>,
) -> Result<(), AllocError>
    ensures bytes { OnOk result (out.new.items ≡ out.old.items ++ (lead_text words.now (map rest_of opened.old) ++ opening_text words.now label form (is_enclosed (map rest_of opened.old) form))) }
    ensures opened { OnOk result (map rest_of opened.new ≡ just_opened form features.now (is_enclosed (map rest_of opened.old) form) ∷ passed (map rest_of opened.old)) }
{
    let enclosed = is_enclosed(opened, form);
    add_lead(alloc, words, opened, out)?;
    add_opening_text(words, label, form, enclosed, out)?;
    opened.push(Open {
        form,
        features,
        next: 1,
        first: true,
        closes: !is_chain(form) || enclosed,
    })
}

fn add_end(closes: bool, out: &mut Vec<u8>) -> Result<(), AllocError>
    ensures { OnOk result (out.new.items ≡ out.old.items ++ end_text closes) }
{
    if closes {
        out.push(b')')?;
    }
    Ok(())
}

/// Ends the innermost records that have no field left.
pub fn close_records(opened: &mut Stack<Open>, out: &mut Vec<u8>) -> Result<(), AllocError>
    ensures bytes { OnOk result (out.new.items ≡ out.old.items ++ closing (map rest_of opened.old)) }
    ensures opened { OnOk result (map rest_of opened.new ≡ still_open (map rest_of opened.old)) }
{
    'records: while let Some(innermost) = opened.pop() {
        if !innermost.features.is_empty() {
            return opened.push(innermost);
        }
        add_end(innermost.closes, out)?;
    }
    Ok(())
}
