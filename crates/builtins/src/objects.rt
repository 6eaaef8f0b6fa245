//! Names, cells and ports. What a space sees of cells and ports is its own, or that of a space above it, which it may not use.
ghost use Rattle.std.specs.Prelude.{◌≡◌, ℕ, IfOk};
ghost use Rattle.oz_semantics.specs.Answers as answers;
ghost use Rattle.oz_semantics.specs.Answers.{with_value};
ghost use Rattle.builtins.specs.Exact.{answer_of, erased, acting, own_act, on_cell, on_port};

use crate::answer::{Act, Answer};
use oz_base::{Copies, Ident, SpaceName, same_space};
use oz_semantics::{RaiseKind, Value};
use std::alloc::{AllocError, Global};
use term_store::Store;

/// The number of what this space owns. An error is the answer in its place, as in the functions below.
fn own_number(owner: &Ident, space: &SpaceName, global: RaiseKind) -> Result<u64, Answer>
    ensures { (act : ℕ → answers.Act) → acting act result ≡ erased (own_act space.now global act owner.now) }
{
    if same_space(&owner.space, space) {
        Ok(owner.number)
    } else {
        Err(Answer::RaisesKind(global))
    }
}

/// The number of a cell, which is waited for.
fn own_cell(store: &Store, space: &SpaceName, cell: &Ident) -> Result<u64, Answer>
    ensures { (act : ℕ → answers.Act) → acting act result ≡ erased (with_value store.now cell.now (on_cell space.now act)) }
{
    match store.value(cell) {
        None => Err(Answer::Rests),
        Some(Value::Cell(owner)) => own_number(owner, space, RaiseKind::GlobalCell),
        Some(_) => Err(Answer::RaisesKind(RaiseKind::BadKind)),
    }
}

/// The number of a port, which is waited for.
fn own_port(store: &Store, space: &SpaceName, port: &Ident) -> Result<u64, Answer>
    ensures { (act : ℕ → answers.Act) → acting act result ≡ erased (with_value store.now port.now (on_port space.now act)) }
{
    match store.value(port) {
        None => Err(Answer::Rests),
        Some(Value::Port(owner)) => own_number(owner, space, RaiseKind::GlobalPort),
        Some(_) => Err(Answer::RaisesKind(RaiseKind::BadKind)),
    }
}

/// The output is a new name.
pub fn new_name(alloc: Global, output: &Ident) -> Result<Answer, AllocError>
    ensures { IfOk result (λ a. answer_of a ≡ answers.Acts (answers.MakesName output.now)) }
{
    Ok(Answer::Acts(Act::MakesName {
        variable: output.copied(alloc)?,
    }))
}

/// The output is a new cell with this content.
pub fn new_cell(alloc: Global, content: &Ident, output: &Ident) -> Result<Answer, AllocError>
    ensures { IfOk result (λ a. answer_of a ≡ answers.Acts (answers.MakesCell output.now content.now)) }
{
    Ok(Answer::Acts(Act::MakesCell {
        variable: output.copied(alloc)?,
        content: content.copied(alloc)?,
    }))
}

/// The output is what a cell contains.
pub fn access(
    alloc: Global,
    store: &Store,
    space: &SpaceName,
    cell: &Ident,
    output: &Ident,
) -> Result<Answer, AllocError>
    ensures { IfOk result (λ a. answer_of a ≡ erased (with_value store.now cell.now (on_cell space.now (λ n. answers.Reads n output.now)))) }
{
    match own_cell(store, space, cell) {
        Ok(cell) => Ok(Answer::Acts(Act::Reads {
            cell,
            variable: output.copied(alloc)?,
        })),
        Err(answer) => Ok(answer),
    }
}

/// A cell contains this from now on.
pub fn assign(
    alloc: Global,
    store: &Store,
    space: &SpaceName,
    cell: &Ident,
    content: &Ident,
) -> Result<Answer, AllocError>
    ensures { IfOk result (λ a. answer_of a ≡ erased (with_value store.now cell.now (on_cell space.now (λ n. answers.Writes n content.now)))) }
{
    match own_cell(store, space, cell) {
        Ok(cell) => Ok(Answer::Acts(Act::Writes {
            cell,
            content: content.copied(alloc)?,
        })),
        Err(answer) => Ok(answer),
    }
}

/// The output is what a cell contains, and from now on the cell contains this.
pub fn exchange(
    alloc: Global,
    store: &Store,
    space: &SpaceName,
    cell: &Ident,
    output: &Ident,
    content: &Ident,
) -> Result<Answer, AllocError>
    ensures { IfOk result (λ a. answer_of a ≡ erased (with_value store.now cell.now (on_cell space.now (λ n. answers.Exchanges n output.now content.now)))) }
{
    match own_cell(store, space, cell) {
        Ok(cell) => Ok(Answer::Acts(Act::Exchanges {
            cell,
            variable: output.copied(alloc)?,
            content: content.copied(alloc)?,
        })),
        Err(answer) => Ok(answer),
    }
}

/// The output is a new port with this stream.
pub fn new_port(alloc: Global, stream: &Ident, output: &Ident) -> Result<Answer, AllocError>
    ensures { IfOk result (λ a. answer_of a ≡ answers.Acts (answers.MakesPort output.now stream.now)) }
{
    Ok(Answer::Acts(Act::MakesPort {
        variable: output.copied(alloc)?,
        stream: stream.copied(alloc)?,
    }))
}

/// This is the next in the stream of a port.
pub fn send(
    alloc: Global,
    store: &Store,
    space: &SpaceName,
    port: &Ident,
    item: &Ident,
) -> Result<Answer, AllocError>
    ensures { IfOk result (λ a. answer_of a ≡ erased (with_value store.now port.now (on_port space.now (λ n. answers.Sends n item.now)))) }
{
    match own_port(store, space, port) {
        Ok(port) => Ok(Answer::Acts(Act::Sends {
            port,
            item: item.copied(alloc)?,
        })),
        Err(answer) => Ok(answer),
    }
}
