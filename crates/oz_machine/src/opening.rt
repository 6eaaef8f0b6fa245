//! The opening configuration of a program.
ghost use Rattle.std.specs.Prelude.{◌≡◌, ◌∷◌, ◌++◌, ◌+◌, [], List, map, IfOk, OnOk};
ghost use Rattle.oz_language.specs.declared.kernel.Identifier.TheVariants.{Word};
ghost use Rattle.environments.specs.Environments.{binding};
ghost use Rattle.oz_semantics.specs.Names.{named};
ghost use Rattle.oz_semantics.specs.Builtins as builtins;
ghost use Rattle.oz_semantics.specs.Builtins.{rows};
ghost use Rattle.oz_semantics.specs.Configurations.{spawning, frames_of};
ghost use Rattle.oz_semantics.specs.Runs.{opening_environment, builtin_names, builtin_tells, fd_parts, fd_record, fd_number, top_layer, opening};
ghost use Rattle.oz_semantics.specs.declared.value.Tell;
ghost use Rattle.oz_semantics.specs.declared.value.Value;
ghost use Rattle.builtins.specs.Tables.{row_of, worded, word_of};
ghost use Rattle.oz_machine.specs.Courses.{config_of};
ghost use Rattle.oz_machine.specs.Openings.{ArePartsOf};

use crate::course::{Course, Due};
use builtins::{Row, rows};
use environments::Environment;
use oz_base::{Ident, Sequence, Shared, SpaceName};
use oz_language::{Constant, Identifier, Kernel, Literal};
use oz_semantics::{Builtin, Record, Tell, Value};
use oz_threads::Queue;
use shared_list::SharedList;
use space_core::Levels;
use statements::frames_of;
use std::alloc::{AllocError, Global};

/// The words `Script` and `FD`, and the atom `fd`.
const SCRIPT: u32 = 0;

const FD: u32 = 2;

const FD_LABEL: u32 = 56;

/// The number of the variable `FD`: it comes behind those of the built-ins.
fn fd_number() -> u64
    ensures { result ≡ fd_number }
{
    rows().len() as u64 + 1
}

/// A variable of the top.
fn top_variable(number: u64) -> Ident
    ensures { result ≡ named [] number }
{
    Ident {
        space: SpaceName::top(),
        number,
    }
}

/// The word with this number stands for a variable of the top.
fn name(
    alloc: Global,
    environment: &mut Environment,
    word: u32,
    number: u64,
) -> Result<(), AllocError>
    ensures { OnOk result (environment.new ≡ binding (Word word) (named [] number) environment.old) }
{
    environment.bind(alloc, Identifier::Word(word), top_variable(number))
}

/// A row's name stands for the variable of the row's number. Those of the rows behind it were named before.
fn name_row(
    alloc: Global,
    environment: &mut Environment,
    row: &Row,
    number: u64,
) -> Result<(), AllocError>
    requires { worded row.now ≡ word_of (row_of row.now) }
    ensures { (more : List builtins.Row) → environment.old ≡ builtin_names (number + 1) more → OnOk result (environment.new ≡ builtin_names number (row_of row.now ∷ more)) }
{
    match row {
        Row::Named { word, .. } => name(alloc, environment, *word, number),
        Row::Operator(_) | Row::Part { .. } => Ok(()),
    }
}

/// What the names of the built-ins stand for. The first are bound last.
fn builtin_names(alloc: Global) -> Result<Environment, AllocError>
    ensures { IfOk result (λ environment. environment ≡ builtin_names 1 rows) }
{
    let rows = rows();
    let mut environment = Environment::new();
    let mut left = rows.len();
    'rows: while left > 0 {
        let number = left as u64;
        left -= 1;
        name_row(alloc, &mut environment, &rows[left], number)?;
    }
    Ok(environment)
}

/// What the names of the language stand for.
fn opening_environment(alloc: Global) -> Result<Environment, AllocError>
    ensures { IfOk result (λ environment. environment ≡ opening_environment) }
{
    let mut environment = builtin_names(alloc)?;
    name(alloc, &mut environment, FD, fd_number())?;
    name(alloc, &mut environment, SCRIPT, 0)?;
    Ok(environment)
}

/// What the top's variable with this number is.
fn built_in(number: u64, builtin: Builtin) -> Tell
    ensures { result ≡ Tell.Is (named [] number) (Value.Builtin builtin) }
{
    Tell::Is {
        variable: top_variable(number),
        value: Value::Builtin(builtin),
    }
}

/// What the top is told of the built-in of a row with this number.
fn tell_of(row: &Row, number: u64) -> Tell
    ensures { (more : List builtins.Row) → result ∷ builtin_tells (number + 1) more ≡ builtin_tells number (row_of row.now ∷ more) }
{
    match row {
        Row::Operator(operation) => built_in(number, Builtin::Operation(*operation)),
        Row::Named { builtin, .. } => built_in(number, *builtin),
        Row::Part { builtin, .. } => built_in(number, *builtin),
    }
}

/// The same joins others.
fn add_tell(tells: &mut Vec<Tell>, row: &Row, number: u64) -> Result<(), AllocError>
    ensures { (more : List builtins.Row) → OnOk result (tells.new.items ++ builtin_tells (number + 1) more ≡ tells.old.items ++ builtin_tells number (row_of row.now ∷ more)) }
{
    tells.push(tell_of(row, number))?;
    Ok(())
}

/// What the top is told of the built-ins.
fn built_ins(alloc: Global) -> Result<Vec<Tell>, AllocError>
    ensures { IfOk result (λ tells. tells.items ≡ builtin_tells 1 rows) }
{
    let mut tells = Vec::new(alloc);
    let mut number = 0;
    'rows: for row in rows() {
        number += 1;
        add_tell(&mut tells, row, number)?;
    }
    Ok(tells)
}

/// The fields of the record `FD`.
#[derive(Drop)]
struct Parts {
    features: Vec<Constant>,
    fields: Vec<Ident>,
}

/// A row's field of the record `FD`, if it is one, joins others.
fn add_part(parts: &mut Parts, row: &Row, number: u64) -> Result<(), AllocError>
    requires { worded row.now ≡ word_of (row_of row.now) }
    ensures { (more : List builtins.Row) → OnOk result (ArePartsOf (fd_parts number (row_of row.now ∷ more)) parts.old (fd_parts (number + 1) more) parts.new) }
{
    match row {
        Row::Part { word, .. } => {
            parts
                .features
                .push(Constant::Literal(Literal::Atom(*word)))?;
            parts.fields.push(top_variable(number))?;
            Ok(())
        }
        Row::Operator(_) | Row::Named { .. } => Ok(()),
    }
}

/// The fields of the record `FD`: those built-ins that have no name of their own.
fn fd_parts(alloc: Global) -> Result<Parts, AllocError>
    ensures features { IfOk result (λ parts. parts.features.items ≡ map (λ p. p.0) (fd_parts 1 rows)) }
    ensures fields { IfOk result (λ parts. parts.fields.items ≡ map (λ p. p.1) (fd_parts 1 rows)) }
{
    let mut parts = Parts {
        features: Vec::new(alloc),
        fields: Vec::new(alloc),
    };
    let mut number: u64 = 0;
    'rows: for row in rows() {
        number += 1;
        add_part(&mut parts, row, number)?;
    }
    Ok(parts)
}

/// What the top is told of `FD`.
fn fd_tell(alloc: Global) -> Result<Tell, AllocError>
    ensures { IfOk result (λ tell. tell ≡ Tell.Is (named [] fd_number) fd_record) }
{
    let Parts { features, fields } = fd_parts(alloc)?;
    let record = Record {
        label: Literal::Atom(FD_LABEL),
        features: Sequence::from_vec(features),
        fields: Sequence::from_vec(fields),
    };
    Ok(Tell::Is {
        variable: top_variable(fd_number()),
        value: Value::Record(Shared::new(alloc, record)?),
    })
}

/// What the top is told before the program begins.
fn opening_tells(alloc: Global) -> Result<Vec<Tell>, AllocError>
    ensures { IfOk result (λ tells. tells.items ≡ builtin_tells 1 rows ++ Tell.Is (named [] fd_number) fd_record ∷ []) }
{
    let mut tells = built_ins(alloc)?;
    tells.push(fd_tell(alloc)?)?;
    Ok(tells)
}

/// The top with the built-ins and its one thread, which has the program's statements.
fn opening_levels(alloc: Global, kernel: &Kernel) -> Result<Levels, AllocError>
    ensures { IfOk result (λ levels. levels ≡ spawning (frames_of opening_environment kernel.now.body) top_layer ∷ []) }
{
    let top = SpaceName::top();
    let mut levels = Levels::new(alloc)?;
    // What is told of variables that were given out leaves the space traced.
    levels.give_out(&top, fd_number())?;
    if !levels.tell(alloc, &top, opening_tells(alloc)?.as_slice())? {
        return Err(AllocError);
    }
    let environment = opening_environment(alloc)?;
    let frames = frames_of(alloc, &environment, kernel.body.as_slice())?;
    levels.spawn(&top, frames)?;
    Ok(levels)
}

/// The opening configuration. Everybody is due.
pub fn opening(alloc: Global, kernel: &Kernel) -> Result<Course, AllocError>
    ensures { IfOk result (λ course. config_of kernel.now.statements course ≡ opening kernel.now) }
{
    Ok(Course {
        levels: opening_levels(alloc, kernel)?,
        queue: Queue::new(alloc),
        due: Due::Everybody { mover: None },
        shown: SharedList::new(),
    })
}
