//! Nodes of terms.
ghost use Rattle.std.specs.Prelude.{◌≡◌, IfOk};
ghost use Rattle.oz_semantics.specs.Terms.{leaf, tuple_node, width};
ghost use Rattle.oz_raise.specs.Nodes.{node_of};

use oz_base::Sequence;
use oz_language::{Constant, Literal};
use std::alloc::{AllocError, Global};

/// A node of a term. A term is the list of its nodes level by level: the fields of each node come behind those of the nodes
/// before it.
#[derive(Drop)]
pub enum Node {
    Leaf(Constant),
    /// A record, by its label and its features in the order of arities.
    Branch {
        label: Literal,
        features: Sequence<Constant>,
    },
}

/// The atom that is the word with this number.
pub(crate) fn atom(word: u32) -> Node
    ensures { node_of result ≡ leaf (Constant.Literal (Literal.Atom word)) }
{
    Node::Leaf(Constant::Literal(Literal::Atom(word)))
}

/// A node with one field, labelled by the word with this number.
pub(crate) fn single(alloc: Global, word: u32) -> Result<Node, AllocError>
    ensures { IfOk result (λ node. node_of node ≡ tuple_node (Literal.Atom word) 1) }
{
    let mut features = Sequence::new(alloc);
    features.push(Constant::Int(1))?;
    Ok(Node::Branch {
        label: Literal::Atom(word),
        features,
    })
}

/// A node with two fields, labelled by the word with this number.
pub(crate) fn pair(alloc: Global, word: u32) -> Result<Node, AllocError>
    ensures { IfOk result (λ node. node_of node ≡ tuple_node (Literal.Atom word) 2) }
{
    let mut features = Sequence::new(alloc);
    features.push(Constant::Int(1))?;
    features.push(Constant::Int(2))?;
    Ok(Node::Branch {
        label: Literal::Atom(word),
        features,
    })
}

/// How many fields it has.
pub(crate) fn width(node: &Node) -> usize
    ensures { result ≡ width (node_of node.now) }
{
    match node {
        Node::Leaf(_) => 0,
        Node::Branch { features, .. } => features.len(),
    }
}
