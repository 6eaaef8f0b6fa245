//! What a statement's act does to the layers.
ghost use Rattle.std.specs.Prelude.{◌≡◌, true, false, ◌∷◌, [], is_some, option_to_list, IfOk, OnOk, OnErr};
ghost use Rattle.environments.specs.Environments.{Environment};
ghost use Rattle.oz_semantics.specs.Terms.{list_term, term_tells};
ghost use Rattle.oz_semantics.specs.Configurations.{layer_of, layer_at};
ghost use Rattle.oz_raise.specs.Nodes.{term_of};
ghost use Rattle.oz_semantics.specs.Effects.{act_effect};
ghost use Rattle.oz_semantics.specs.Changes.{Pushes, Spawns, changed_all};
ghost use Rattle.oz_semantics.specs.Steps.{without_top};
ghost use Rattle.oz_semantics.specs.Answers as answers;
ghost use Rattle.builtins.specs.Answers.{act_of};
ghost use Rattle.oz_acts.specs.Doings.{IsDone, is_quiet, is_shown, started_by};

use crate::numbers::next_of;
use crate::objects::{exchange, make_cell, make_name, make_port, read_cell, send};
use builtins::{Act, Closure, Declaration, Posting};
use environments::Environment;
use oz_base::{Copies, Ident, Sequence, Shared};
use oz_language::Constant;
use oz_raise::{Node, list_term, term_tells};
use oz_semantics::{Frame, Procedure, Tell, Value};
use space_core::{Given, Levels, bind_from};
use statements::frames_of;
use std::alloc::{AllocError, Global};
use std::mem;

/// A body goes on, in which the identifiers stand for new variables.
fn declare(
    alloc: Global,
    levels: &mut Levels,
    id: &Ident,
    declaration: &Declaration,
) -> Result<(), AllocError>
    ensures ok { IfOk result (λ done. IsDone id.now (act_effect (layer_of levels.old id.now.space) (answers.Declares declaration.now.environment declaration.now.names declaration.now.body)) levels.old levels.new true) }
    ensures err { OnErr result (levels.new ≡ levels.old) }
{
    let next = next_of(levels, &id.space);
    let names = declaration.names.as_slice();
    let mut environment = declaration.environment.copied(alloc)?;
    bind_from(alloc, &mut environment, names, &id.space, next.variable)?;
    let frames = frames_of(alloc, &environment, declaration.body.as_slice())?;
    levels.declare(id, frames, names.len() as u64)
}

/// These statements go on. They are taken out of the act.
fn go_on(
    alloc: Global,
    levels: &mut Levels,
    id: &Ident,
    frames: &mut Sequence<Frame>,
) -> Result<(), AllocError>
    ensures ok { OnOk result (levels.new ≡ changed_all id.now (Pushes frames.old ∷ []) (without_top id.now levels.old)) }
    ensures err { OnErr result (levels.new ≡ levels.old) }
{
    let frames = mem::replace(frames, Sequence::new(alloc));
    levels.go_on(id, frames.into_vec())
}

/// A new thread begins with these statements. They are taken out of the act.
fn start(
    alloc: Global,
    levels: &mut Levels,
    id: &Ident,
    frames: &mut Sequence<Frame>,
) -> Result<(), AllocError>
    ensures ok { OnOk result (levels.new ≡ changed_all id.now (Spawns frames.old ∷ []) (without_top id.now levels.old)) }
    ensures err { OnErr result (levels.new ≡ levels.old) }
{
    let frames = mem::replace(frames, Sequence::new(alloc));
    levels.start(id, frames.into_vec())
}

/// The variable has this value.
fn give_value(
    alloc: Global,
    levels: &mut Levels,
    id: &Ident,
    variable: &Ident,
    value: &Value,
) -> Result<bool, AllocError>
    requires { is_some (layer_at levels.old id.now.space) ≡ true }
    ensures ok { IfOk result (IsDone id.now (act_effect (layer_of levels.old id.now.space) (answers.GivesValue variable.now value.now)) levels.old levels.new) }
    ensures err { OnErr result (levels.new ≡ levels.old) }
{
    let tell = Tell::Is {
        variable: variable.copied(alloc)?,
        value: value.copied(alloc)?,
    };
    levels.tell_by(alloc, id, &[tell], Given::Nothing)
}

/// The variable is equal to another one.
fn give_variable(
    alloc: Global,
    levels: &mut Levels,
    id: &Ident,
    variable: &Ident,
    other: &Ident,
) -> Result<bool, AllocError>
    requires { is_some (layer_at levels.old id.now.space) ≡ true }
    ensures ok { IfOk result (IsDone id.now (act_effect (layer_of levels.old id.now.space) (answers.GivesVariable variable.now other.now)) levels.old levels.new) }
    ensures err { OnErr result (levels.new ≡ levels.old) }
{
    let equation = Tell::Equal {
        left: variable.copied(alloc)?,
        right: other.copied(alloc)?,
    };
    levels.tell_by(alloc, id, &[equation], Given::Nothing)
}

/// The variable is the term of these nodes.
pub fn give_term(
    alloc: Global,
    levels: &mut Levels,
    id: &Ident,
    variable: &Ident,
    nodes: &[Node],
) -> Result<bool, AllocError>
    requires { is_some (layer_at levels.old id.now.space) ≡ true }
    ensures ok { IfOk result (IsDone id.now (act_effect (layer_of levels.old id.now.space) (answers.GivesTerm variable.now (term_of nodes.now))) levels.old levels.new) }
    ensures err { OnErr result (levels.new ≡ levels.old) }
{
    let next = next_of(levels, &id.space);
    let tells = term_tells(alloc, &id.space, next.variable, variable, nodes)?;
    let count = nodes.len().saturating_sub(1) as u64;
    levels.tell_by(alloc, id, &tells, Given::Variables(count))
}

/// The variable is the list of these.
fn give_list(
    alloc: Global,
    levels: &mut Levels,
    id: &Ident,
    variable: &Ident,
    items: &[Constant],
) -> Result<bool, AllocError>
    requires { is_some (layer_at levels.old id.now.space) ≡ true }
    ensures ok { IfOk result (IsDone id.now (act_effect (layer_of levels.old id.now.space) (answers.GivesTerm variable.now (list_term items.now))) levels.old levels.new) }
    ensures err { OnErr result (levels.new ≡ levels.old) }
{
    let nodes = list_term(alloc, items)?;
    give_term(alloc, levels, id, variable, &nodes)
}

/// A copy of the environment, with room for the new variables of a procedure that keeps it.
fn gathered(alloc: Global, environment: &Environment) -> Result<Environment, AllocError>
    ensures { IfOk result (λ gathered. gathered ≡ environment.now) }
{
    let mut gathered = environment.copied(alloc)?;
    gathered.gather(alloc)?;
    Ok(gathered)
}

/// The variable is a new procedure.
fn make_procedure(
    alloc: Global,
    levels: &mut Levels,
    id: &Ident,
    variable: Ident,
    closure: &Closure,
) -> Result<bool, AllocError>
    requires { is_some (layer_at levels.old id.now.space) ≡ true }
    ensures ok { IfOk result (IsDone id.now (act_effect (layer_of levels.old id.now.space) (answers.MakesProcedure variable closure.now.parameters closure.now.body closure.now.environment)) levels.old levels.new) }
    ensures err { OnErr result (levels.new ≡ levels.old) }
{
    let next = next_of(levels, &id.space);
    let procedure = Procedure {
        name: Ident {
            space: id.space.copied(alloc)?,
            number: next.procedure,
        },
        parameters: closure.parameters.copied(alloc)?,
        body: closure.body.copied(alloc)?,
        environment: gathered(alloc, &closure.environment)?,
    };
    let value = Value::Procedure(Shared::new(alloc, procedure)?);
    levels.tell_by(alloc, id, &[Tell::Is { variable, value }], Given::Procedure)
}

/// The variables are told these domains, and the relation is posted.
fn post(
    alloc: Global,
    levels: &mut Levels,
    id: &Ident,
    posting: &Posting,
) -> Result<bool, AllocError>
    requires { is_some (layer_at levels.old id.now.space) ≡ true }
    ensures ok { IfOk result (IsDone id.now (act_effect (layer_of levels.old id.now.space) (answers.Posts posting.now.tells posting.now.relation posting.now.variables)) levels.old levels.new) }
    ensures err { OnErr result (levels.new ≡ levels.old) }
{
    let propagator = Given::Propagator {
        relation: posting.relation.copied(alloc)?,
        variables: posting.variables.copied(alloc)?,
    };
    levels.tell_by(alloc, id, posting.tells.as_slice(), propagator)
}

/// Takes the statement off the top of a thread's stack, and lets go of it.
pub fn take_off(levels: &mut Levels, id: &Ident)
    ensures { levels.new ≡ without_top id.now levels.old }
{
    let _frame = levels.pop(id);
}

/// Whether an act tells its space nothing, and shows nothing.
pub fn is_quiet(act: &Act) -> bool
    ensures { result ≡ is_quiet (act_of act.now) }
{
    match act {
        Act::Passes
        | Act::GoesOn(_)
        | Act::Declares(_)
        | Act::Starts(_)
        | Act::Writes { .. }
        | Act::Delays { .. } => true,
        Act::GivesValue { .. }
        | Act::GivesList { .. }
        | Act::GivesVariable { .. }
        | Act::MakesProcedure { .. }
        | Act::MakesName { .. }
        | Act::MakesCell { .. }
        | Act::Reads { .. }
        | Act::Exchanges { .. }
        | Act::MakesPort { .. }
        | Act::Sends { .. }
        | Act::Confines(_)
        | Act::Posts(_)
        | Act::Shows(_) => false,
    }
}

/// The thread that an act starts, if it starts one.
pub fn started(
    alloc: Global,
    levels: &Levels,
    id: &Ident,
    act: &Act,
) -> Result<Option<Ident>, AllocError>
    ensures { IfOk result (λ started. option_to_list started ≡ started_by id.now.space (layer_of levels.now id.now.space) (act_of act.now)) }
{
    match act {
        Act::Starts(_) => Ok(Some(Ident {
            space: id.space.copied(alloc)?,
            number: next_of(levels, &id.space).thread,
        })),
        Act::Passes
        | Act::GoesOn(_)
        | Act::Declares(_)
        | Act::GivesValue { .. }
        | Act::GivesList { .. }
        | Act::GivesVariable { .. }
        | Act::MakesProcedure { .. }
        | Act::MakesName { .. }
        | Act::MakesCell { .. }
        | Act::Reads { .. }
        | Act::Writes { .. }
        | Act::Exchanges { .. }
        | Act::MakesPort { .. }
        | Act::Sends { .. }
        | Act::Delays { .. }
        | Act::Confines(_)
        | Act::Posts(_)
        | Act::Shows(_) => Ok(None),
    }
}

/// Takes the statement off a thread's stack and does what an act says that shows nothing. The act is of no use afterwards. False
/// exactly where what is told clashes: then nothing was done.
pub fn act(
    alloc: Global,
    levels: &mut Levels,
    id: &Ident,
    act: &mut Act,
) -> Result<bool, AllocError>
    requires there { is_some (layer_at levels.old id.now.space) ≡ true }
    requires quiet { is_shown (act_of act.old) ≡ false }
    ensures ok { IfOk result (IsDone id.now (act_effect (layer_of levels.old id.now.space) (act_of act.old)) levels.old levels.new) }
    ensures err { OnErr result (levels.new ≡ levels.old) }
{
    match act {
        Act::Passes => {
            take_off(levels, id);
            Ok(true)
        }
        Act::GoesOn(frames) => {
            go_on(alloc, levels, id, frames)?;
            Ok(true)
        }
        Act::Declares(declaration) => {
            declare(alloc, levels, id, declaration.get())?;
            Ok(true)
        }
        Act::Starts(frames) => {
            start(alloc, levels, id, frames)?;
            Ok(true)
        }
        Act::GivesValue { variable, value } => give_value(alloc, levels, id, variable, value),
        Act::GivesList { variable, items } => {
            give_list(alloc, levels, id, variable, items.as_slice())
        }
        Act::GivesVariable { variable, other } => give_variable(alloc, levels, id, variable, other),
        Act::MakesProcedure {
            variable,
            procedure,
        } => make_procedure(alloc, levels, id, variable.copied(alloc)?, procedure.get()),
        Act::MakesName { variable } => make_name(alloc, levels, id, variable.copied(alloc)?),
        Act::MakesCell { variable, content } => make_cell(
            alloc,
            levels,
            id,
            variable.copied(alloc)?,
            content.copied(alloc)?,
        ),
        Act::Reads { cell, variable } => {
            read_cell(alloc, levels, id, *cell, variable.copied(alloc)?)
        }
        Act::Writes { cell, content } => {
            levels.assign(alloc, id, *cell, content.copied(alloc)?)?;
            Ok(true)
        }
        Act::Exchanges {
            cell,
            variable,
            content,
        } => exchange(
            alloc,
            levels,
            id,
            *cell,
            variable.copied(alloc)?,
            content.copied(alloc)?,
        ),
        Act::MakesPort { variable, stream } => make_port(
            alloc,
            levels,
            id,
            variable.copied(alloc)?,
            stream.copied(alloc)?,
        ),
        Act::Sends { port, item } => send(alloc, levels, id, *port, item.copied(alloc)?),
        Act::Delays {
            procedure,
            variable,
        } => {
            levels.delay(id, procedure.copied(alloc)?, variable.copied(alloc)?)?;
            Ok(true)
        }
        Act::Confines(tells) => levels.tell_by(alloc, id, tells.as_slice(), Given::Nothing),
        Act::Posts(posting) => post(alloc, levels, id, posting.get()),
        Act::Shows(_) => unreachable!(),
    }
}
