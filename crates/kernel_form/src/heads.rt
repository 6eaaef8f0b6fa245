//! What is printed of a statement before its bodies.
ghost use Rattle.std.specs.Prelude.{◌≡◌, ◌∷◌, ◌++◌, [], codes, OnOk};
ghost use Rattle.oz_language.specs.SimpleTexts.{constant_text};
ghost use Rattle.oz_language.specs.KernelTexts.{name_text, name_texts, operation_text, spaced};
ghost use Rattle.kernel_form.specs.Nodes.{nodes_text, record_nodes};
ghost use Rattle.kernel_form.specs.Heads.{head_text};

use crate::names::{add_further_names, add_name, add_names};
use crate::operations::add_operation;
use crate::patterns::{add_pattern, add_record};
use crate::sums::{add_product, add_sum};
use oz_base::Words;
use oz_language::{Constant, Identifier, Literal, Operation, Piece, Statement};
use simple_text::add_constant;
use std::alloc::{AllocError, Global};

// `local X .. in `
fn add_local(
    alloc: Global,
    words: &Words,
    names: &[Identifier],
    out: &mut Vec<u8>,
) -> Result<(), AllocError>
    ensures { OnOk result (out.new.items ≡ out.old.items ++ (codes "local " ++ spaced (name_texts words.now names.now) ++ codes " in ")) }
{
    out.extend_from_slice(b"local ")?;
    add_names(alloc, words, names, out)?;
    out.extend_from_slice(b" in ")
}

// `X=`
fn add_left_side(
    alloc: Global,
    words: &Words,
    name: Identifier,
    out: &mut Vec<u8>,
) -> Result<(), AllocError>
    ensures { OnOk result (out.new.items ≡ out.old.items ++ (name_text words.now name ++ codes "=")) }
{
    add_name(alloc, words, name, out)?;
    out.extend_from_slice(b"=")
}

// `X=Y`
fn add_equation(
    alloc: Global,
    words: &Words,
    left: Identifier,
    right: Identifier,
    out: &mut Vec<u8>,
) -> Result<(), AllocError>
    ensures { OnOk result (out.new.items ≡ out.old.items ++ (name_text words.now left ++ codes "=" ++ name_text words.now right)) }
{
    add_left_side(alloc, words, left, out)?;
    add_name(alloc, words, right, out)
}

// `X=v`
fn add_constant_bound(
    alloc: Global,
    words: &Words,
    name: Identifier,
    value: Constant,
    out: &mut Vec<u8>,
) -> Result<(), AllocError>
    ensures { OnOk result (out.new.items ≡ out.old.items ++ (name_text words.now name ++ codes "=" ++ constant_text words.now value)) }
{
    add_left_side(alloc, words, name, out)?;
    add_constant(alloc, words, value, out)
}

// `X=l(F:Y ..)`
fn add_record_bound(
    alloc: Global,
    words: &Words,
    name: Identifier,
    label: Literal,
    features: &[Constant],
    fields: &[Identifier],
    out: &mut Vec<u8>,
) -> Result<(), AllocError>
    ensures { OnOk result (out.new.items ≡ out.old.items ++ (name_text words.now name ++ codes "=" ++ nodes_text words.now [] (record_nodes label features.now fields.now))) }
{
    add_left_side(alloc, words, name, out)?;
    add_record(alloc, words, label, features, fields, out)
}

// `X=proc {$ Y ..} `
fn add_procedure(
    alloc: Global,
    words: &Words,
    name: Identifier,
    parameters: &[Identifier],
    out: &mut Vec<u8>,
) -> Result<(), AllocError>
    ensures { OnOk result (out.new.items ≡ out.old.items ++ (name_text words.now name ++ codes "=proc {" ++ spaced (codes "$" ∷ name_texts words.now parameters.now) ++ codes "} ")) }
{
    add_name(alloc, words, name, out)?;
    out.extend_from_slice(b"=proc {$")?;
    add_further_names(alloc, words, parameters, out)?;
    out.extend_from_slice(b"} ")
}

// `{X Y ..}`
fn add_call(
    alloc: Global,
    words: &Words,
    procedure: Identifier,
    arguments: &[Identifier],
    out: &mut Vec<u8>,
) -> Result<(), AllocError>
    ensures { OnOk result (out.new.items ≡ out.old.items ++ (codes "{" ++ spaced (name_texts words.now (procedure ∷ arguments.now)) ++ codes "}")) }
{
    out.extend_from_slice(b"{")?;
    add_name(alloc, words, procedure, out)?;
    add_further_names(alloc, words, arguments, out)?;
    out.extend_from_slice(b"}")
}

// `{'op' X ..}`
fn add_application(
    alloc: Global,
    words: &Words,
    operation: Operation,
    arguments: &[Identifier],
    out: &mut Vec<u8>,
) -> Result<(), AllocError>
    ensures { OnOk result (out.new.items ≡ out.old.items ++ (codes "{" ++ spaced (operation_text operation ∷ name_texts words.now arguments.now) ++ codes "}")) }
{
    out.extend_from_slice(b"{")?;
    add_operation(operation, out)?;
    add_further_names(alloc, words, arguments, out)?;
    out.extend_from_slice(b"}")
}

// `raise X end`
fn add_raise(
    alloc: Global,
    words: &Words,
    name: Identifier,
    out: &mut Vec<u8>,
) -> Result<(), AllocError>
    ensures { OnOk result (out.new.items ≡ out.old.items ++ (codes "raise " ++ name_text words.now name ++ codes " end")) }
{
    out.extend_from_slice(b"raise ")?;
    add_name(alloc, words, name, out)?;
    out.extend_from_slice(b" end")
}

// `if X then `
fn add_condition(
    alloc: Global,
    words: &Words,
    condition: Identifier,
    out: &mut Vec<u8>,
) -> Result<(), AllocError>
    ensures { OnOk result (out.new.items ≡ out.old.items ++ (codes "if " ++ name_text words.now condition ++ codes " then ")) }
{
    out.extend_from_slice(b"if ")?;
    add_name(alloc, words, condition, out)?;
    out.extend_from_slice(b" then ")
}

// `case X of P then `
fn add_case(
    alloc: Global,
    words: &Words,
    subject: Identifier,
    pattern: &[Piece],
    out: &mut Vec<u8>,
) -> Result<(), AllocError>
    ensures { OnOk result (out.new.items ≡ out.old.items ++ (codes "case " ++ name_text words.now subject ++ codes " of " ++ nodes_text words.now [] pattern.now ++ codes " then ")) }
{
    out.extend_from_slice(b"case ")?;
    add_name(alloc, words, subject, out)?;
    out.extend_from_slice(b" of ")?;
    add_pattern(alloc, words, pattern, out)?;
    out.extend_from_slice(b" then ")
}

/// Adds what stands before the bodies of a statement: all of one that has none.
pub fn add_head(
    alloc: Global,
    words: &Words,
    statement: &Statement,
    out: &mut Vec<u8>,
) -> Result<(), AllocError>
    ensures { OnOk result (out.new.items ≡ out.old.items ++ head_text words.now statement.now) }
{
    match statement {
        Statement::Skip => out.extend_from_slice(b"skip"),
        Statement::Fail => out.extend_from_slice(b"fail"),
        Statement::Local { names, .. } => add_local(alloc, words, names.as_slice(), out),
        Statement::Equate { left, right } => add_equation(alloc, words, *left, *right, out),
        Statement::Bind { name, value } => add_constant_bound(alloc, words, *name, *value, out),
        Statement::BindRecord {
            name,
            label,
            features,
            fields,
        } => add_record_bound(
            alloc,
            words,
            *name,
            *label,
            features.as_slice(),
            fields.as_slice(),
            out,
        ),
        Statement::BindProcedure {
            name,
            parameters,
            ..
        } => add_procedure(alloc, words, *name, parameters.as_slice(), out),
        Statement::Call {
            procedure,
            arguments,
        } => add_call(alloc, words, *procedure, arguments.as_slice(), out),
        Statement::Choice { .. } => out.extend_from_slice(b"choice "),
        Statement::If { condition, .. } => add_condition(alloc, words, *condition, out),
        Statement::Case {
            subject,
            pattern,
            ..
        } => add_case(alloc, words, *subject, pattern.as_slice(), out),
        Statement::NoMatch => out.extend_from_slice(b"nomatch"),
        Statement::Operate {
            operation,
            arguments,
        } => add_application(alloc, words, *operation, arguments.as_slice(), out),
        Statement::Thread { .. } => out.extend_from_slice(b"thread "),
        Statement::Try { .. } => out.extend_from_slice(b"try "),
        Statement::Raise { name } => add_raise(alloc, words, *name, out),
        Statement::Post {
            sign,
            constant,
            terms,
        } => add_sum(alloc, words, *sign, *constant, terms.as_slice(), out),
        Statement::PostTimes {
            left,
            right,
            product,
        } => add_product(alloc, words, *left, *right, *product, out),
    }
}
