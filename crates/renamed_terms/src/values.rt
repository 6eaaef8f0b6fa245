//! Values and tells under other names.
ghost use Rattle.std.specs.Prelude.{◌≡◌, true, IfOk, map};
ghost use Rattle.environments.specs.Environments.{renamed};
ghost use Rattle.renamings.specs.Renames.{ident_by};
ghost use Rattle.renamings.specs.declared.given.Kind.TheVariants as kind;
ghost use Rattle.oz_semantics.specs.Renamings.{renamed_value, renamed_tell};

use crate::Renamed;
use oz_base::{Copies, Ident, Shared};
use oz_semantics::{Procedure, Record, Tell, Value};
use renamings::{Kind, Renaming};
use std::alloc::{AllocError, Global};

/// Whether all of these keep their names.
fn are_kept(by: &Renaming, variables: &[Ident]) -> bool
    ensures { result ≡ true → map (ident_by kind.Variable by.now) variables.now ≡ variables.now }
{
    for variable in variables {
        if !by.keeps(variable) {
            return false;
        }
    }
    true
}

/// It shares one whose fields keep their names.
fn record_under(
    alloc: Global,
    by: &Renaming,
    source: &Shared<Record>,
) -> Result<Shared<Record>, AllocError>
    ensures { IfOk result (λ after. after ≡ record source.now { fields = map (ident_by kind.Variable by.now) source.now.fields }) }
{
    let within = source.get();
    if are_kept(by, within.fields.as_slice()) {
        return source.copied(alloc);
    }
    renamed_record(alloc, by, within)
}

fn renamed_record(
    alloc: Global,
    by: &Renaming,
    source: &Record,
) -> Result<Shared<Record>, AllocError>
    ensures { IfOk result (λ after. after ≡ record source.now { fields = map (ident_by kind.Variable by.now) source.now.fields }) }
{
    Shared::new(
        alloc,
        Record {
            label: source.label,
            features: source.features.copied(alloc)?,
            fields: source.fields.renamed(alloc, by)?,
        },
    )
}

fn renamed_procedure(
    alloc: Global,
    by: &Renaming,
    procedure: &Procedure,
) -> Result<Shared<Procedure>, AllocError>
    ensures { IfOk result (λ after. after ≡ record procedure.now {
      name = ident_by kind.Procedure by.now procedure.now.name;
      environment = renamed (ident_by kind.Variable by.now) procedure.now.environment;
    }) }
{
    Shared::new(
        alloc,
        Procedure {
            name: by.ident(alloc, Kind::Procedure, &procedure.name)?,
            parameters: procedure.parameters.copied(alloc)?,
            body: procedure.body.copied(alloc)?,
            environment: procedure.environment.renamed(alloc, by)?,
        },
    )
}

impl Renamed for Value {
    ghost renamed = { renamed_value };

    fn renamed(&self, alloc: Global, by: &Renaming) -> Result<Self, AllocError> {
        match self {
            Value::Constant(constant) => Ok(Value::Constant(*constant)),
            Value::Name(name) => Ok(Value::Name(by.ident(alloc, Kind::Name, name)?)),
            Value::Record(record) => Ok(Value::Record(record_under(alloc, by, record)?)),
            Value::Procedure(procedure) => {
                let after = renamed_procedure(alloc, by, procedure.get())?;
                Ok(Value::Procedure(after))
            }
            Value::Builtin(builtin) => Ok(Value::Builtin(*builtin)),
            Value::Cell(cell) => Ok(Value::Cell(by.ident(alloc, Kind::Cell, cell)?)),
            Value::Port(port) => Ok(Value::Port(by.ident(alloc, Kind::Port, port)?)),
            Value::Space(space) => Ok(Value::Space(by.space(alloc, space)?)),
        }
    }
}

impl Renamed for Tell {
    ghost renamed = { renamed_tell };

    fn renamed(&self, alloc: Global, by: &Renaming) -> Result<Self, AllocError> {
        match self {
            Tell::Equal { left, right } => Ok(Tell::Equal {
                left: left.renamed(alloc, by)?,
                right: right.renamed(alloc, by)?,
            }),
            Tell::Is { variable, value } => Ok(Tell::Is {
                variable: variable.renamed(alloc, by)?,
                value: value.renamed(alloc, by)?,
            }),
            Tell::Within {
                variable,
                intervals,
            } => Ok(Tell::Within {
                variable: variable.renamed(alloc, by)?,
                intervals: intervals.copied(alloc)?,
            }),
        }
    }
}
