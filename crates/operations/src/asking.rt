//! The state of a space, as a term (CTM 12.5): `failed`, `raised(E)`, `merged`, `alternatives(N)`, `succeeded`.
ghost use Rattle.std.specs.Prelude.{◌≡◌, pos, codes, unwrap_or, IfOk};
ghost use Rattle.oz_semantics.specs.Terms.{leaf, just_constant, just_atom, around, tuple_node, read_term};
ghost use Rattle.oz_semantics.specs.Operations.{copy_limit, raised_term};
ghost use Rattle.oz_semantics.specs.Answers as answers;
ghost use Rattle.oz_raise.specs.Nodes.{node_of, term_of};
ghost use Rattle.operations.specs.Outcomes.{outcome_of, asks};

use crate::outcome::Outcome;
use crate::reading::{COPY_LIMIT, read_term};
use crate::states::waits;
use crate::words;
use oz_base::{Copies, Ident, Sequence, SpaceName};
use oz_language::{Constant, Literal};
use oz_raise::Node;
use oz_semantics::{SpaceOperation, State};
use std::alloc::{AllocError, Global};
use term_store::Store;

/// The atom that is the word with this number.
fn atom(word: u32) -> Node
    ensures { node_of result ≡ leaf (Constant.Literal (Literal.Atom word)) }
{
    Node::Leaf(Constant::Literal(Literal::Atom(word)))
}

/// A node with one field, labelled by the word with this number.
fn around(alloc: Global, word: u32) -> Result<Node, AllocError>
    ensures { IfOk result (λ node. node_of node ≡ tuple_node (Literal.Atom word) 1) }
{
    let mut features = Sequence::new(alloc);
    features.push(Constant::Int(1))?;
    Ok(Node::Branch {
        label: Literal::Atom(word),
        features,
    })
}

/// The atom that is the word with this number, as a term.
fn just_atom(alloc: Global, word: u32) -> Result<Vec<Node>, AllocError>
    ensures { IfOk result (λ nodes. term_of nodes.items ≡ just_constant (Constant.Literal (Literal.Atom word))) }
{
    let mut nodes = Vec::new(alloc);
    nodes.push(atom(word))?;
    Ok(nodes)
}

/// `alternatives(N)`
fn alternatives(alloc: Global, count: u64) -> Result<Vec<Node>, AllocError>
    ensures { IfOk result (λ nodes. term_of nodes.items ≡ around (codes "alternatives") (just_constant (Constant.Int (pos count)))) }
{
    let mut nodes = Vec::new(alloc);
    nodes.push(around(alloc, words::ALTERNATIVES)?)?;
    nodes.push(Node::Leaf(Constant::Int(count as i128)))?;
    Ok(nodes)
}

/// The exception of a space, or `opaque` where it has too many nodes or others than integers, literals and records.
fn exception_or_opaque(
    alloc: Global,
    inner: &Store,
    exception: &Ident,
) -> Result<Vec<Node>, AllocError>
    ensures { IfOk result (λ nodes. term_of nodes.items ≡ unwrap_or (read_term inner.now copy_limit exception.now) (just_atom (codes "opaque"))) }
{
    match read_term(alloc, inner, COPY_LIMIT, exception)? {
        Some(nodes) => Ok(nodes),
        None => just_atom(alloc, words::OPAQUE),
    }
}

/// `raised(E)`
fn raised(alloc: Global, inner: &Store, exception: &Ident) -> Result<Vec<Node>, AllocError>
    ensures { IfOk result (λ nodes. term_of nodes.items ≡ raised_term inner.now exception.now) }
{
    let mut inside = exception_or_opaque(alloc, inner, exception)?;
    let mut nodes = Vec::new(alloc);
    nodes.push(around(alloc, words::RAISED)?)?;
    nodes.append(&mut inside)?;
    Ok(nodes)
}

/// The variable is the term of these nodes.
fn gives(alloc: Global, variable: &Ident, nodes: Vec<Node>) -> Result<Outcome, AllocError>
    ensures { IfOk result (λ o. outcome_of o ≡ answers.Acts (answers.GivesTerm variable.now (term_of nodes.items))) }
{
    Ok(Outcome::GivesTerm {
        variable: variable.copied(alloc)?,
        nodes: Sequence::from_vec(nodes),
    })
}

/// The variable is the atom that is the word with this number.
fn gives_atom(alloc: Global, variable: &Ident, word: u32) -> Result<Outcome, AllocError>
    ensures { IfOk result (λ o. outcome_of o ≡ answers.Acts (answers.GivesTerm variable.now (just_constant (Constant.Literal (Literal.Atom word))))) }
{
    let nodes = just_atom(alloc, word)?;
    gives(alloc, variable, nodes)
}

fn gives_alternatives(alloc: Global, variable: &Ident, count: u64) -> Result<Outcome, AllocError>
    ensures { IfOk result (λ o. outcome_of o ≡ answers.Acts (answers.GivesTerm variable.now (around (codes "alternatives") (just_constant (Constant.Int (pos count)))))) }
{
    let nodes = alternatives(alloc, count)?;
    gives(alloc, variable, nodes)
}

fn gives_raised(
    alloc: Global,
    inner: &Store,
    variable: &Ident,
    exception: &Ident,
) -> Result<Outcome, AllocError>
    ensures { IfOk result (λ o. outcome_of o ≡ answers.Acts (answers.GivesTerm variable.now (raised_term inner.now exception.now))) }
{
    let nodes = raised(alloc, inner, exception)?;
    gives(alloc, variable, nodes)
}

/// It waits until the space is decided.
fn asks_again(alloc: Global, space: &SpaceName, variable: &Ident) -> Result<Outcome, AllocError>
    ensures { IfOk result (λ o. outcome_of o ≡ answers.Operates SpaceOperation.Ask space.now variable.now) }
{
    let answer = waits(alloc, SpaceOperation::Ask, space, variable)?;
    Ok(Outcome::Answers(answer))
}

/// The variable is the state of the space, which is waited for.
pub fn asks(
    alloc: Global,
    inner: &Store,
    space: &SpaceName,
    variable: &Ident,
    state: &State,
) -> Result<Outcome, AllocError>
    ensures { IfOk result (λ o. outcome_of o ≡ asks inner.now space.now variable.now state.now) }
{
    match state {
        State::Running | State::Suspended => asks_again(alloc, space, variable),
        State::Failed => gives_atom(alloc, variable, words::FAILED),
        State::Raised(exception) => gives_raised(alloc, inner, variable, exception),
        State::Merged => gives_atom(alloc, variable, words::MERGED),
        State::Alternatives(count) => gives_alternatives(alloc, variable, *count),
        State::Solved | State::Stuck => gives_atom(alloc, variable, words::SUCCEEDED),
    }
}
