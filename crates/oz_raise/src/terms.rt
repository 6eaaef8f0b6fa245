//! The terms of exceptions, and lists.
ghost use Rattle.std.specs.Prelude.{◌≡◌, ◌∷◌, ◌++◌, codes, IfOk};
ghost use Rattle.oz_language.specs.Wording.{given_atom};
ghost use Rattle.oz_semantics.specs.Exceptions.{raise_term};
ghost use Rattle.oz_semantics.specs.Terms.{just_constant, just_atom, around, tuple_node, list_term};
ghost use Rattle.oz_raise.specs.Nodes.{term_of};

use crate::node::{atom, pair, single};
use crate::{Node, words};
use oz_language::{Constant, Literal};
use oz_semantics::RaiseKind;
use std::alloc::{AllocError, Global};

/// `failure(..)` of an atom.
fn failure(alloc: Global, what: u32) -> Result<Vec<Node>, AllocError>
    ensures { IfOk result (λ nodes. term_of nodes.items ≡ around (codes "failure") (just_constant (Constant.Literal (Literal.Atom what)))) }
{
    let mut nodes = Vec::new(alloc);
    nodes.push(single(alloc, words::FAILURE)?)?;
    nodes.push(atom(what))?;
    Ok(nodes)
}

/// `error(kernel(..))` of an atom.
fn kernel_error(alloc: Global, what: u32) -> Result<Vec<Node>, AllocError>
    ensures { IfOk result (λ nodes. term_of nodes.items ≡ around (codes "error") (around (codes "kernel") (just_constant (Constant.Literal (Literal.Atom what))))) }
{
    let mut nodes = Vec::new(alloc);
    nodes.push(single(alloc, words::ERROR)?)?;
    nodes.push(single(alloc, words::KERNEL)?)?;
    nodes.push(atom(what))?;
    Ok(nodes)
}

/// `error(kernel(globalState ..))` of an atom.
fn global_error(alloc: Global, what: u32) -> Result<Vec<Node>, AllocError>
    ensures { IfOk result (λ nodes. term_of nodes.items ≡ around (codes "error") (tuple_node (given_atom (codes "kernel")) 2 ∷ just_atom (codes "globalState") ++ just_constant (Constant.Literal (Literal.Atom what)))) }
{
    let mut nodes = Vec::new(alloc);
    nodes.push(single(alloc, words::ERROR)?)?;
    nodes.push(pair(alloc, words::KERNEL)?)?;
    nodes.push(atom(words::GLOBAL_STATE))?;
    nodes.push(atom(what))?;
    Ok(nodes)
}

/// The term of an exception that the machine raises itself.
pub fn term(alloc: Global, kind: RaiseKind) -> Result<Vec<Node>, AllocError>
    ensures { IfOk result (λ nodes. term_of nodes.items ≡ raise_term kind) }
{
    match kind {
        RaiseKind::FailureTell => failure(alloc, words::TELL),
        RaiseKind::FailureFail => failure(alloc, words::FAIL),
        RaiseKind::FailureTop => failure(alloc, words::TOP),
        RaiseKind::FailureSpace => failure(alloc, words::SPACE),
        RaiseKind::Overflow => kernel_error(alloc, words::OVERFLOW),
        RaiseKind::DivZero => kernel_error(alloc, words::DIV_ZERO),
        RaiseKind::BadKind => kernel_error(alloc, words::KIND),
        RaiseKind::Apply => kernel_error(alloc, words::APPLY),
        RaiseKind::Arity => kernel_error(alloc, words::ARITY),
        RaiseKind::Feature => kernel_error(alloc, words::FEATURE),
        RaiseKind::Boolean => kernel_error(alloc, words::BOOLEAN),
        RaiseKind::NoElse => kernel_error(alloc, words::NO_ELSE),
        RaiseKind::Domain => kernel_error(alloc, words::DOMAIN),
        RaiseKind::SpaceParent => kernel_error(alloc, words::SPACE_PARENT),
        RaiseKind::SpaceChoice => kernel_error(alloc, words::SPACE_CHOICE),
        RaiseKind::SpaceMerged => kernel_error(alloc, words::SPACE_MERGED),
        RaiseKind::SpaceRaised => kernel_error(alloc, words::SPACE_RAISED),
        RaiseKind::GlobalCell => global_error(alloc, words::CELL),
        RaiseKind::GlobalPort => global_error(alloc, words::PORT),
        RaiseKind::GlobalIo => global_error(alloc, words::IO),
    }
}

/// The list of these.
pub fn list_term(alloc: Global, items: &[Constant]) -> Result<Vec<Node>, AllocError>
    ensures { IfOk result (λ nodes. term_of nodes.items ≡ list_term items.now) }
{
    let mut nodes = Vec::new(alloc);
    for item in items {
        nodes.push(pair(alloc, words::BAR)?)?;
        nodes.push(Node::Leaf(*item))?;
    }
    nodes.push(atom(words::NIL))?;
    Ok(nodes)
}
