//! Patterns, as the lists of their nodes.
ghost use Rattle.std.specs.Prelude.{◌≡◌, ℕ, pos, [], ◌∷◌, ◌++◌, map, OnOk, IfOk};
ghost use Rattle.std.specs.List.{flat_map};
ghost use Rattle.oz_language.specs.Grammar.{of_list, rec, list, paren, bars, hashes};
ghost use Rattle.oz_language.specs.Kernels.{pieces, word_text};
ghost use Rattle.oz_language.specs.Kernels as k;
ghost use Rattle.oz_language.specs.Translation.{patterned, patterned_each, list_pattern};
ghost use Rattle.oz_language.specs.declared.kernel.Constant.TheVariants as constant;
ghost use Rattle.oz_syntax.specs.View.{view, views};
ghost use Rattle.kernel_patterns.specs.Nodes.{nodes_of, record_nodes, cell_node, cells_nodes, list_nodes, chain_nodes, codes_nodes};

use crate::arities::in_arity_order;
use crate::records::{keys_of, unzipped, zipped};
use kernel_output::{bar, hash, nil, text_of};
use oz_base::{Sequence, Words};
use oz_language::{Constant, Identifier, Literal, Piece};
use oz_syntax::Phrase;
use std::alloc::{AllocError, Global};

/// One node alone.
fn one(alloc: Global, piece: Piece) -> Result<Sequence<Piece>, AllocError>
    ensures { IfOk result (λ pieces. pieces ≡ piece ∷ []) }
{
    let mut pieces = Sequence::new(alloc);
    pieces.push(piece)?;
    Ok(pieces)
}

/// A node, and the nodes of its fields behind it.
fn with_each(
    alloc: Global,
    piece: Piece,
    fields: Sequence<Sequence<Piece>>,
) -> Result<Sequence<Piece>, AllocError>
    ensures { IfOk result (λ pieces. pieces ≡ piece ∷ flat_map (λ field. field) fields) }
{
    let mut pieces = one(alloc, piece)?;
    'fields: for field in fields.into_vec() {
        pieces.append(field.into_vec())?;
    }
    Ok(pieces)
}

/// The nodes of a record, or of the literal that a record without fields is.
#[tactic(auto, using(crate::proofs::PieceLaws::flat_fields))]
fn record_nodes(
    alloc: Global,
    label: Literal,
    fields: Sequence<(Constant, Sequence<Piece>)>,
) -> Result<Sequence<Piece>, AllocError>
    ensures { IfOk result (λ pieces. pieces ≡ record_nodes label fields) }
{
    if fields.len() == 0 {
        return one(alloc, Piece::Constant(Constant::Literal(label)));
    }
    let (features, nodes) = unzipped(alloc, fields)?;
    with_each(alloc, Piece::Record { label, features }, nodes)
}

/// The node of a cell, without those of its head and its tail.
fn cell(alloc: Global) -> Result<Piece, AllocError>
    ensures { IfOk result (λ piece. piece ≡ cell_node) }
{
    let mut features = Sequence::new(alloc);
    features.push(Constant::Int(1))?;
    features.push(Constant::Int(2))?;
    Ok(Piece::Record {
        label: bar(),
        features,
    })
}

/// Adds a cell whose head has one node. Its tail is to follow.
fn push_code(alloc: Global, nodes: &mut Sequence<Piece>, code: u8) -> Result<(), AllocError>
    ensures { OnOk result (nodes.new ≡ nodes.old ++ codes_nodes (code ∷ [])) }
{
    nodes.push(cell(alloc)?)?;
    nodes.push(Piece::Constant(Constant::Int(i128::from(code))))?;
    Ok(())
}

/// Adds a cell with the nodes of its head. Its tail is to follow.
fn push_cell(
    alloc: Global,
    nodes: &mut Sequence<Piece>,
    head: Sequence<Piece>,
) -> Result<(), AllocError>
    ensures { OnOk result (nodes.new ≡ nodes.old ++ cell_node ∷ head) }
{
    nodes.push(cell(alloc)?)?;
    nodes.append(head.into_vec())?;
    Ok(())
}

/// Cells with these heads.
#[tactic(auto, using(crate::proofs::PieceLaws::cells_more))]
fn cells(alloc: Global, heads: Vec<Sequence<Piece>>) -> Result<Sequence<Piece>, AllocError>
    ensures { IfOk result (λ nodes. nodes ≡ cells_nodes heads.items) }
{
    let mut nodes = Sequence::new(alloc);
    'heads: for head in heads {
        push_cell(alloc, &mut nodes, head)?;
    }
    Ok(nodes)
}

/// The cells of a string.
fn codes(alloc: Global, bytes: &[u8]) -> Result<Sequence<Piece>, AllocError>
    ensures { IfOk result (λ nodes. nodes ≡ codes_nodes bytes.now) }
{
    let mut nodes = Sequence::new(alloc);
    'bytes: for byte in bytes {
        push_code(alloc, &mut nodes, *byte)?;
    }
    Ok(nodes)
}

/// The nodes of a string: those of the list of its codes.
#[tactic(auto, using(crate::proofs::PieceLaws::string_nodes))]
fn string_nodes(alloc: Global, bytes: &[u8]) -> Result<Sequence<Piece>, AllocError>
    ensures { IfOk result (λ nodes. nodes ≡ pieces (list_pattern (map (λ (c : ℕ). k.constant (constant.Int (pos c))) bytes.now))) }
{
    let mut nodes = codes(alloc, bytes)?;
    nodes.push(Piece::Constant(nil()))?;
    Ok(nodes)
}

/// Those of a list, by those of its elements.
fn list_nodes(
    alloc: Global,
    elements: Sequence<Sequence<Piece>>,
) -> Result<Sequence<Piece>, AllocError>
    ensures { IfOk result (λ nodes. nodes ≡ list_nodes elements) }
{
    let mut nodes = cells(alloc, elements.into_vec())?;
    nodes.push(Piece::Constant(nil()))?;
    Ok(nodes)
}

/// Those of a chain, by those of its parts, of which the last is its end.
#[tactic(auto, using(crate::proofs::PieceLaws::chain_last))]
fn chain_nodes(
    alloc: Global,
    parts: Sequence<Sequence<Piece>>,
) -> Result<Sequence<Piece>, AllocError>
    ensures { IfOk result (λ nodes. nodes ≡ chain_nodes parts) }
{
    let mut heads = parts.into_vec();
    let Some(last) = heads.pop() else {
        return one(alloc, Piece::Any);
    };
    let mut nodes = cells(alloc, heads)?;
    nodes.append(last.into_vec())?;
    Ok(nodes)
}

/// The nodes of a pattern, in the order in which a match goes through them.
#[cycle(pieces)]
pub fn pieces(alloc: Global, words: &Words, pattern: &Phrase) -> Result<Sequence<Piece>, AllocError>
    ensures { IfOk result (λ nodes. nodes ≡ pieces (patterned words.now (view pattern.now))) }
{
    match pattern {
        Phrase::Var { name, .. } => one(alloc, Piece::Variable(Identifier::Word(*name))),
        Phrase::Int { value, .. } => one(alloc, Piece::Constant(Constant::Int(*value))),
        Phrase::String { text, .. } => string_nodes(alloc, text_of(words, *text)),
        Phrase::Literal { literal, .. } => one(alloc, Piece::Constant(Constant::Literal(*literal))),
        Phrase::Record { label, fields, .. } => record_pieces(alloc, words, *label, fields),
        Phrase::Keyed { value, .. } => pieces(alloc, words, value),
        Phrase::List { elements, .. } => list_pieces(alloc, words, elements),
        Phrase::Paren { inner, .. } => paren_pieces(alloc, words, inner),
        Phrase::Bars { elements } => bars_pieces(alloc, words, elements),
        Phrase::Hashes { elements } => hashes_pieces(alloc, words, elements),
        // It is `_`, or no pattern at all.
        _ => one(alloc, Piece::Any),
    }
}

/// Those of a pattern in parentheses.
#[cycle(pieces)]
fn paren_pieces(
    alloc: Global,
    words: &Words,
    inner: &[Phrase],
) -> Result<Sequence<Piece>, AllocError>
    ensures { IfOk result (λ nodes. nodes ≡ pieces (patterned words.now (paren 0 (of_list (views inner.now))))) }
{
    if inner.len() != 1 {
        return one(alloc, Piece::Any);
    }
    pieces(alloc, words, &inner[0])
}

/// Those of a record: its own node, and then those of its fields in the order of their features.
#[tactic(auto, using(crate::proofs::PieceLaws::ordered_nodes))]
#[cycle(pieces)]
fn record_pieces(
    alloc: Global,
    words: &Words,
    label: Literal,
    fields: &[Phrase],
) -> Result<Sequence<Piece>, AllocError>
    ensures { IfOk result (λ nodes. nodes ≡ pieces (patterned words.now (rec label 0 (of_list (views fields.now))))) }
{
    let nodes = pieces_each(alloc, words, fields)?;
    let keys = keys_of(alloc, fields)?;
    let fields = in_arity_order(words, zipped(alloc, &keys, nodes)?)?;
    record_nodes(alloc, label, fields)
}

/// Those of a list.
#[tactic(auto, using(crate::proofs::PieceLaws::list_nodes_of))]
#[cycle(pieces)]
fn list_pieces(
    alloc: Global,
    words: &Words,
    elements: &[Phrase],
) -> Result<Sequence<Piece>, AllocError>
    ensures { IfOk result (λ nodes. nodes ≡ pieces (patterned words.now (list 0 (of_list (views elements.now))))) }
{
    let nodes = pieces_each(alloc, words, elements)?;
    list_nodes(alloc, nodes)
}

/// Those of a chain of bars.
#[tactic(auto, using(crate::proofs::PieceLaws::chain_nodes_of))]
#[cycle(pieces)]
fn bars_pieces(
    alloc: Global,
    words: &Words,
    elements: &[Phrase],
) -> Result<Sequence<Piece>, AllocError>
    ensures { IfOk result (λ nodes. nodes ≡ pieces (patterned words.now (bars (of_list (views elements.now))))) }
{
    let nodes = pieces_each(alloc, words, elements)?;
    chain_nodes(alloc, nodes)
}

/// Those of a tuple.
#[tactic(auto, using(crate::proofs::PieceLaws::tuple_nodes))]
#[cycle(pieces)]
fn hashes_pieces(
    alloc: Global,
    words: &Words,
    elements: &[Phrase],
) -> Result<Sequence<Piece>, AllocError>
    ensures { IfOk result (λ nodes. nodes ≡ pieces (patterned words.now (hashes (of_list (views elements.now))))) }
{
    let nodes = pieces_each(alloc, words, elements)?;
    let keys = keys_of(alloc, elements)?;
    let fields = zipped(alloc, &keys, nodes)?;
    record_nodes(alloc, hash(), fields)
}

/// Those of each field.
#[cycle(pieces)]
fn pieces_each(
    alloc: Global,
    words: &Words,
    fields: &[Phrase],
) -> Result<Sequence<Sequence<Piece>>, AllocError>
    ensures { IfOk result (λ each. each ≡ nodes_of (patterned_each words.now (of_list (views fields.now)))) }
{
    let mut each = Sequence::new(alloc);
    'fields: for field in fields {
        each.push(pieces(alloc, words, field)?)?;
    }
    Ok(each)
}
