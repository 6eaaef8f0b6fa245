//! Patterns, and records of identifiers, node by node.
ghost use Rattle.std.specs.Prelude.{◌≡◌, ◌++◌, [], map, OnOk};
ghost use Rattle.kernel_form.specs.Fields.{rest_of, lead_text, closing, still_open, passed};
ghost use Rattle.kernel_form.specs.Nodes.{node_text, open_behind, nodes_text, record_nodes};
ghost use Rattle.oz_language.specs.KernelTexts.{name_text};
ghost use Rattle.oz_language.specs.declared.kernel.Piece.TheVariants as pieces;

use crate::names::add_name;
use crate::records::{Open, add_lead, close_records, open_record};
use oz_base::{Stack, Words};
use oz_language::{Constant, Identifier, Literal, Piece};
use simple_text::{add_constant, form_of};
use std::alloc::{AllocError, Global};

// Adds a node, but not the ends of records behind it.
fn add_open_node<'a>(
    alloc: Global,
    words: &Words,
    piece: &'a Piece,
    opened: &mut Stack<Open<'a>>,
    out: &mut Vec<u8>,
) -> Result<(), AllocError>
    ensures bytes { OnOk result (out.new.items ≡ out.old.items ++ (lead_text words.now (map rest_of opened.old) ++ node_text words.now (map rest_of opened.old) piece.now)) }
    ensures opened { OnOk result (map rest_of opened.new ≡ open_behind words.now (map rest_of opened.old) piece.now) }
{
    match piece {
        Piece::Variable(name) => {
            add_lead(alloc, words, opened, out)?;
            add_name(alloc, words, *name, out)
        }
        Piece::Any => {
            add_lead(alloc, words, opened, out)?;
            out.extend_from_slice(b"_")
        }
        Piece::Constant(constant) => {
            add_lead(alloc, words, opened, out)?;
            add_constant(alloc, words, *constant, out)
        }
        Piece::Record { label, features } => {
            let form = form_of(words, *label, features.as_slice());
            open_record(alloc, words, *label, form, features.as_slice(), opened, out)
        }
    }
}

// Adds a node, and the ends of the records that have no field left.
fn add_node<'a>(
    alloc: Global,
    words: &Words,
    piece: &'a Piece,
    opened: &mut Stack<Open<'a>>,
    out: &mut Vec<u8>,
) -> Result<(), AllocError>
    ensures bytes { OnOk result (out.new.items ≡ out.old.items ++ (lead_text words.now (map rest_of opened.old) ++ (node_text words.now (map rest_of opened.old) piece.now ++ closing (open_behind words.now (map rest_of opened.old) piece.now)))) }
    ensures opened { OnOk result (map rest_of opened.new ≡ still_open (open_behind words.now (map rest_of opened.old) piece.now)) }
{
    add_open_node(alloc, words, piece, opened, out)?;
    close_records(opened, out)
}

/// Adds a pattern.
pub fn add_pattern(
    alloc: Global,
    words: &Words,
    pieces: &[Piece],
    out: &mut Vec<u8>,
) -> Result<(), AllocError>
    ensures { OnOk result (out.new.items ≡ out.old.items ++ nodes_text words.now [] pieces.now) }
{
    let mut opened = Stack::new(alloc);
    'pieces: for piece in pieces {
        add_node(alloc, words, piece, &mut opened, out)?;
    }
    Ok(())
}

// Adds an identifier as a field, and the ends of the records that have no field left.
fn add_field(
    alloc: Global,
    words: &Words,
    name: Identifier,
    opened: &mut Stack<Open>,
    out: &mut Vec<u8>,
) -> Result<(), AllocError>
    ensures bytes { OnOk result (out.new.items ≡ out.old.items ++ (lead_text words.now (map rest_of opened.old) ++ (name_text words.now name ++ closing (passed (map rest_of opened.old))))) }
    ensures opened { OnOk result (map rest_of opened.new ≡ still_open (passed (map rest_of opened.old))) }
{
    add_lead(alloc, words, opened, out)?;
    add_name(alloc, words, name, out)?;
    close_records(opened, out)
}

// Adds identifiers, each as a field.
fn add_fields(
    alloc: Global,
    words: &Words,
    names: &[Identifier],
    opened: &mut Stack<Open>,
    out: &mut Vec<u8>,
) -> Result<(), AllocError>
    ensures { OnOk result (out.new.items ≡ out.old.items ++ nodes_text words.now (map rest_of opened.old) (map pieces.Variable names.now)) }
{
    'names: for name in names {
        add_field(alloc, words, *name, opened, out)?;
    }
    Ok(())
}

/// Adds a record whose fields are identifiers.
pub fn add_record(
    alloc: Global,
    words: &Words,
    label: Literal,
    features: &[Constant],
    fields: &[Identifier],
    out: &mut Vec<u8>,
) -> Result<(), AllocError>
    ensures { OnOk result (out.new.items ≡ out.old.items ++ nodes_text words.now [] (record_nodes label features.now fields.now)) }
{
    let mut opened = Stack::new(alloc);
    let form = form_of(words, label, features);
    open_record(alloc, words, label, form, features, &mut opened, out)?;
    close_records(&mut opened, out)?;
    add_fields(alloc, words, fields, &mut opened, out)
}
