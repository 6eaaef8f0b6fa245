//! What acts on names, cells and ports do to the layers (CTM 3.7.5, 5.1, 6.2). Each takes the statement off the thread's stack, and is false
//! exactly where what is told clashes: then nothing was done.
ghost use Rattle.std.specs.Prelude.{◌≡◌, true, is_some, IfOk, OnErr};
ghost use Rattle.oz_semantics.specs.Names.{named};
ghost use Rattle.oz_semantics.specs.Configurations.{layer_of, layer_at};
ghost use Rattle.oz_semantics.specs.Effects.{act_effect, stream_value};
ghost use Rattle.oz_semantics.specs.Answers as answers;
ghost use Rattle.oz_acts.specs.Doings.{IsDone};

use crate::numbers::{cell_count, content_of, end_of, next_of, port_count};
use oz_base::{Copies, Ident, Sequence, Shared, SpaceName};
use oz_language::{Constant, Literal};
use oz_raise::BAR;
use oz_semantics::{Record, Tell, Value};
use space_core::{Given, Levels};
use std::alloc::{AllocError, Global};

/// What a space gives out under a number.
fn named(alloc: Global, space: &SpaceName, number: u64) -> Result<Ident, AllocError>
    ensures { IfOk result (λ made. made ≡ named space.now number) }
{
    Ok(Ident {
        space: space.copied(alloc)?,
        number,
    })
}

/// The variable is a new name.
pub fn make_name(
    alloc: Global,
    levels: &mut Levels,
    id: &Ident,
    variable: Ident,
) -> Result<bool, AllocError>
    requires { is_some (layer_at levels.old id.now.space) ≡ true }
    ensures ok { IfOk result (IsDone id.now (act_effect (layer_of levels.old id.now.space) (answers.MakesName variable)) levels.old levels.new) }
    ensures err { OnErr result (levels.new ≡ levels.old) }
{
    let next = next_of(levels, &id.space);
    let value = Value::Name(named(alloc, &id.space, next.name)?);
    levels.tell_by(alloc, id, &[Tell::Is { variable, value }], Given::Name)
}

/// The variable is a new cell with this content.
pub fn make_cell(
    alloc: Global,
    levels: &mut Levels,
    id: &Ident,
    variable: Ident,
    content: Ident,
) -> Result<bool, AllocError>
    requires { is_some (layer_at levels.old id.now.space) ≡ true }
    ensures ok { IfOk result (IsDone id.now (act_effect (layer_of levels.old id.now.space) (answers.MakesCell variable content)) levels.old levels.new) }
    ensures err { OnErr result (levels.new ≡ levels.old) }
{
    let number = cell_count(levels, &id.space);
    let value = Value::Cell(named(alloc, &id.space, number)?);
    let cell = Given::Cell(content);
    levels.tell_by(alloc, id, &[Tell::Is { variable, value }], cell)
}

/// The variable is what the cell contains.
pub fn read_cell(
    alloc: Global,
    levels: &mut Levels,
    id: &Ident,
    cell: u64,
    variable: Ident,
) -> Result<bool, AllocError>
    requires { is_some (layer_at levels.old id.now.space) ≡ true }
    ensures ok { IfOk result (IsDone id.now (act_effect (layer_of levels.old id.now.space) (answers.Reads cell variable)) levels.old levels.new) }
    ensures err { OnErr result (levels.new ≡ levels.old) }
{
    let content = content_of(alloc, levels, &id.space, cell)?;
    let equation = Tell::Equal {
        left: variable,
        right: content,
    };
    levels.tell_by(alloc, id, &[equation], Given::Nothing)
}

/// The variable is what the cell contains, and from now on the cell contains the content.
pub fn exchange(
    alloc: Global,
    levels: &mut Levels,
    id: &Ident,
    cell: u64,
    variable: Ident,
    content: Ident,
) -> Result<bool, AllocError>
    requires { is_some (layer_at levels.old id.now.space) ≡ true }
    ensures ok { IfOk result (IsDone id.now (act_effect (layer_of levels.old id.now.space) (answers.Exchanges cell variable content)) levels.old levels.new) }
    ensures err { OnErr result (levels.new ≡ levels.old) }
{
    let before = content_of(alloc, levels, &id.space, cell)?;
    let equation = Tell::Equal {
        left: variable,
        right: before,
    };
    let change = Given::Content { cell, content };
    levels.tell_by(alloc, id, &[equation], change)
}

/// The variable is a new port with this stream.
pub fn make_port(
    alloc: Global,
    levels: &mut Levels,
    id: &Ident,
    variable: Ident,
    stream: Ident,
) -> Result<bool, AllocError>
    requires { is_some (layer_at levels.old id.now.space) ≡ true }
    ensures ok { IfOk result (IsDone id.now (act_effect (layer_of levels.old id.now.space) (answers.MakesPort variable stream)) levels.old levels.new) }
    ensures err { OnErr result (levels.new ≡ levels.old) }
{
    let number = port_count(levels, &id.space);
    let value = Value::Port(named(alloc, &id.space, number)?);
    let port = Given::Port(stream);
    levels.tell_by(alloc, id, &[Tell::Is { variable, value }], port)
}

/// An item at the front of a stream.
fn stream_value(alloc: Global, item: Ident, rest: Ident) -> Result<Value, AllocError>
    ensures { IfOk result (λ value. value ≡ stream_value item rest) }
{
    let mut features = Sequence::new(alloc);
    features.push(Constant::Int(1))?;
    features.push(Constant::Int(2))?;
    let mut fields = Sequence::new(alloc);
    fields.push(item)?;
    fields.push(rest)?;
    let record = Record {
        label: Literal::Atom(BAR),
        features,
        fields,
    };
    Ok(Value::Record(Shared::new(alloc, record)?))
}

/// The item is the next in the stream of the port.
pub fn send(
    alloc: Global,
    levels: &mut Levels,
    id: &Ident,
    port: u64,
    item: Ident,
) -> Result<bool, AllocError>
    requires { is_some (layer_at levels.old id.now.space) ≡ true }
    ensures ok { IfOk result (IsDone id.now (act_effect (layer_of levels.old id.now.space) (answers.Sends port item)) levels.old levels.new) }
    ensures err { OnErr result (levels.new ≡ levels.old) }
{
    let next = next_of(levels, &id.space);
    let end = named(alloc, &id.space, next.variable)?;
    let variable = end_of(alloc, levels, &id.space, port)?;
    let value = stream_value(alloc, item, end.copied(alloc)?)?;
    let moved = Given::End { port, end };
    levels.tell_by(alloc, id, &[Tell::Is { variable, value }], moved)
}
