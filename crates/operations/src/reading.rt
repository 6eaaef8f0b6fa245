//! Terms of a limited number of nodes, as they are read.
ghost use Rattle.std.specs.Prelude.{◌≡◌, IfOk, option_map};
ghost use Rattle.oz_semantics.specs.Terms.{branch, read_term};
ghost use Rattle.oz_raise.specs.Nodes.{node_of, term_of};
ghost use Rattle.operations.specs.Reading.{node_in};

use oz_base::{Copies, Ident, copies_of};
use oz_raise::Node;
use oz_semantics::{Record, Value};
use std::alloc::{AllocError, Global};
use term_store::{Store, fields_of};

/// The most nodes of an exception that is copied.
pub const COPY_LIMIT: usize = 1000;

fn branch(alloc: Global, whole: &Record) -> Result<Node, AllocError>
    ensures { IfOk result (λ node. node_of node ≡ branch whole.now.label whole.now.features) }
{
    Ok(Node::Branch {
        label: whole.label,
        features: whole.features.copied(alloc)?,
    })
}

/// The node of a value, without its fields. None of a value that is no integer, literal or record.
fn node_in(alloc: Global, value: &Value) -> Result<Option<Node>, AllocError>
    ensures { IfOk result (λ found. option_map node_of found ≡ node_in value.now) }
{
    match value {
        Value::Constant(constant) => Ok(Some(Node::Leaf(*constant))),
        Value::Record(whole) => Ok(Some(branch(alloc, whole.get())?)),
        Value::Name(_)
        | Value::Procedure(_)
        | Value::Builtin(_)
        | Value::Cell(_)
        | Value::Port(_)
        | Value::Space(_) => Ok(None),
    }
}

/// The term of a variable, level by level, where it has at most so many nodes and nothing else than integers, literals and records. The
/// time goes with the nodes and fields that are read.
pub fn read_term(
    alloc: Global,
    store: &Store,
    most: usize,
    variable: &Ident,
) -> Result<Option<Vec<Node>>, AllocError>
    ensures { IfOk result (λ found. option_map (λ nodes. term_of nodes.items) found ≡ read_term store.now most variable.now) }
{
    let mut pending = Vec::new(alloc);
    pending.push(variable.copied(alloc)?)?;
    let mut nodes = Vec::new(alloc);
    'nodes: for place in 0..most {
        if place == pending.len() {
            return Ok(Some(nodes));
        }
        let Some(value) = store.value(&pending[place]) else {
            return Ok(None);
        };
        let Some(node) = node_in(alloc, value)? else {
            return Ok(None);
        };
        nodes.push(node)?;
        let mut fields = copies_of(alloc, fields_of(value))?;
        pending.append(&mut fields)?;
    }
    if most < pending.len() {
        return Ok(None);
    }
    Ok(Some(nodes))
}
