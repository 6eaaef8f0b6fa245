//! What makes a variable a term.
ghost use Rattle.std.specs.Prelude.{◌≡◌, ◌+◌, ◌++◌, ◌∷◌, [], IfOk, OnOk, map};
ghost use Rattle.std.specs.List.{range_with_len};
ghost use Rattle.oz_semantics.specs.Names.{named};
ghost use Rattle.oz_semantics.specs.Terms.{width, node_value, level_tells, term_tells};
ghost use Rattle.oz_raise.specs.Nodes.{node_of, term_of};

use crate::Node;
use crate::node::width;
use oz_base::{Copies, Ident, Sequence, Shared, SpaceName};
use oz_semantics::{Record, Tell, Value};
use std::alloc::{AllocError, Global};

fn variable(alloc: Global, space: &SpaceName, number: u64) -> Result<Ident, AllocError>
    ensures { IfOk result (λ variable. variable ≡ named space.now number) }
{
    Ok(Ident {
        space: space.copied(alloc)?,
        number,
    })
}

#[tactic(auto, using(crate::proofs::VariableLaws::variables_more))]
/// So many variables of the space, from this number on.
fn variables(
    alloc: Global,
    space: &SpaceName,
    from: u64,
    count: usize,
) -> Result<Sequence<Ident>, AllocError>
    ensures { IfOk result (λ variables. variables ≡ map (named space.now) (range_with_len from count)) }
{
    let mut variables = Sequence::new(alloc);
    let mut number = from;
    for i in 0..count {
        variables.push(variable(alloc, space, number)?)?;
        number = number.checked_add(1).ok_or(AllocError)?;
    }
    Ok(variables)
}

/// The value of a node, with the variables from this number on for its fields.
fn node_value(alloc: Global, space: &SpaceName, from: u64, node: &Node) -> Result<Value, AllocError>
    ensures { IfOk result (λ value. value ≡ node_value space.now from (node_of node.now)) }
{
    match node {
        Node::Leaf(constant) => Ok(Value::Constant(*constant)),
        Node::Branch { label, features } => {
            let record = Record {
                label: *label,
                features: features.copied(alloc)?,
                fields: variables(alloc, space, from, features.len())?,
            };
            Ok(Value::Record(Shared::new(alloc, record)?))
        }
    }
}

/// The first number behind those of a node's fields.
fn behind(from: u64, node: &Node) -> Result<u64, AllocError>
    ensures { IfOk result (λ next. next ≡ from + width (node_of node.now)) }
{
    from.checked_add(width(node) as u64).ok_or(AllocError)
}

/// Adds what makes the variables from the first on these nodes, with those from another number on for their fields.
fn append_level(
    alloc: Global,
    space: &SpaceName,
    first: u64,
    from: u64,
    nodes: &[Node],
    tells: &mut Vec<Tell>,
) -> Result<(), AllocError>
    ensures { OnOk result (tells.new.items ≡ tells.old.items ++ level_tells space.now first from (term_of nodes.now)) }
{
    let mut number = first;
    let mut next = from;
    for node in nodes {
        tells.push(Tell::Is {
            variable: variable(alloc, space, number)?,
            value: node_value(alloc, space, next, node)?,
        })?;
        next = behind(next, node)?;
        number = number.checked_add(1).ok_or(AllocError)?;
    }
    Ok(())
}

/// What makes a variable this term, by variables of the space from this number on, one for each node but the first. An error is
/// for lack of memory, or of numbers: they end at 2^64-1.
pub fn term_tells(
    alloc: Global,
    space: &SpaceName,
    from: u64,
    variable: &Ident,
    nodes: &[Node],
) -> Result<Vec<Tell>, AllocError>
    ensures { IfOk result (λ tells. tells.items ≡ term_tells space.now from variable.now (term_of nodes.now)) }
{
    let mut tells = Vec::new(alloc);
    let Some((root, inside)) = nodes.split_first() else {
        return Ok(tells);
    };
    tells.push(Tell::Is {
        variable: variable.copied(alloc)?,
        value: node_value(alloc, space, from, root)?,
    })?;
    let next = behind(from, root)?;
    append_level(alloc, space, from, next, inside, &mut tells)?;
    Ok(tells)
}

/// A term by new variables: the one that stands for it, and what makes it the term.
#[derive(Drop)]
pub struct NewTerm {
    pub variable: Ident,
    pub tells: Vec<Tell>,
}

/// A term by the variables of the space from this number on, of which the first stands for it. An error is for lack of memory, or
/// of numbers: they end at 2^64-1.
pub fn new_term(
    alloc: Global,
    space: &SpaceName,
    from: u64,
    nodes: &[Node],
) -> Result<NewTerm, AllocError>
    ensures variable { IfOk result (λ made. made.variable ≡ named space.now from) }
    ensures tells { IfOk result (λ made. made.tells.items ≡ term_tells space.now (from + 1) (named space.now from) (term_of nodes.now)) }
{
    let variable = variable(alloc, space, from)?;
    let next = from.checked_add(1).ok_or(AllocError)?;
    let tells = term_tells(alloc, space, next, &variable, nodes)?;
    Ok(NewTerm { variable, tells })
}
