//! The variables that identifiers stand for, and the arguments of calls.
ghost use Rattle.std.specs.Prelude.{◌≡◌, ◌∷◌, [], length, map, IfOk};
ghost use Rattle.environments.specs.Environments.{nowhere, bound};
ghost use Rattle.oz_semantics.specs.Answers.{argument};
ghost use Rattle.statements.specs.Variables.{variables_of};

use environments::Environment;
use oz_base::{Copies, Ident, SpaceName};
use oz_language::Identifier;
use std::alloc::{AllocError, Global};

/// The variable that an identifier without a variable stands for. It takes no memory.
pub fn nowhere(alloc: Global) -> Result<Ident, AllocError>
    ensures { IfOk result (λ variable. variable ≡ nowhere) }
{
    Ok(Ident {
        space: SpaceName::top().child(alloc, 0)?,
        number: 0,
    })
}

/// A copy of the variable of an identifier.
pub fn bound(
    alloc: Global,
    environment: &Environment,
    name: Identifier,
) -> Result<Ident, AllocError>
    ensures { IfOk result (λ variable. variable ≡ bound environment.now name) }
{
    match environment.bound(name) {
        Some(variable) => variable.copied(alloc),
        None => nowhere(alloc),
    }
}

/// The variables of identifiers.
pub fn all_bound(
    alloc: Global,
    environment: &Environment,
    names: &[Identifier],
) -> Result<Vec<Ident>, AllocError>
    ensures { IfOk result (λ variables. variables.items ≡ map (bound environment.now) names.now) }
{
    let mut variables = Vec::with_capacity(alloc, names.len())?;
    for name in names {
        variables.push(bound(alloc, environment, *name)?)?;
    }
    Ok(variables)
}

/// The variable of an identifier, without a copy of it. The other stands for one that has none.
pub fn look<'a>(environment: &'a Environment, name: Identifier, missing: &'a Ident) -> &'a Ident
    requires { missing.now ≡ nowhere }
    ensures { result.now ≡ bound environment.now name }
{
    match environment.bound(name) {
        Some(variable) => variable,
        None => missing,
    }
}

/// The arguments of a call.
#[derive(Drop)]
pub enum Arguments<'a> {
    /// The variables of these.
    Names {
        environment: &'a Environment,
        names: &'a [Identifier],
    },
    One(&'a Ident),
}

impl<'a> Arguments<'a> {
    pub fn len(&self) -> usize
        ensures { result ≡ length (variables_of self.now) }
    {
        match self {
            Arguments::Names { names, .. } => names.len(),
            Arguments::One(_) => 1,
        }
    }

    /// The argument at a place, from 0. The other stands for one that is not there, or has no variable.
    pub fn at<'b>(&'b self, place: usize, missing: &'b Ident) -> &'b Ident
        requires { missing.now ≡ nowhere }
        ensures { result.now ≡ argument (variables_of self.now) place }
    {
        match self {
            Arguments::Names { environment, names } => {
                name_at(environment, names, place, missing)
            }
            Arguments::One(variable) => one_at(variable, place, missing),
        }
    }

    /// A copy of the argument at a place, from 0.
    pub fn copy_at(&self, alloc: Global, place: usize) -> Result<Ident, AllocError>
        ensures { IfOk result (λ x. x ≡ argument (variables_of self.now) place) }
    {
        let missing = nowhere(alloc)?;
        self.at(place, &missing).copied(alloc)
    }
}

fn name_at<'a>(
    environment: &'a Environment,
    names: &[Identifier],
    place: usize,
    missing: &'a Ident,
) -> &'a Ident
    requires { missing.now ≡ nowhere }
    ensures { result.now ≡ argument (map (bound environment.now) names.now) place }
{
    match names.get(place) {
        Some(name) => look(environment, *name, missing),
        None => missing,
    }
}

fn one_at<'a>(variable: &'a Ident, place: usize, missing: &'a Ident) -> &'a Ident
    requires { missing.now ≡ nowhere }
    ensures { result.now ≡ argument (variable.now ∷ []) place }
{
    if place == 0 { variable } else { missing }
}
