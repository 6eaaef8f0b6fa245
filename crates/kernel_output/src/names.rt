//! The identifiers of parts.
ghost use Rattle.std.specs.Prelude.{◌≡◌, suc, [], ◌∷◌, OnOk, IfOk};
ghost use Rattle.oz_language.specs.Grammar.{of_list};
ghost use Rattle.oz_language.specs.Translation.{variable_of, name_or, next_after, names_of, behind_names, fresh_among, last_variable, parameter_of, parameter_names, behind_parameters};
ghost use Rattle.oz_language.specs.declared.kernel.Identifier.TheVariants.{Fresh};
ghost use Rattle.oz_syntax.specs.View.{view, views};

use oz_base::Sequence;
use oz_language::Identifier;
use oz_syntax::Phrase;
use std::alloc::{AllocError, Global};

/// The identifier of a variable, also in parentheses or as a field.
pub fn variable_of(phrase: &Phrase) -> Option<Identifier>
    ensures { result ≡ variable_of (view phrase.now) }
{
    match phrase {
        Phrase::Var { name, .. } => Some(Identifier::Word(*name)),
        Phrase::Keyed { value, .. } => variable_of(value),
        Phrase::Paren { inner, .. } => match inner.as_slice() {
            [value] => variable_of(value),
            _ => None,
        },
        _ => None,
    }
}

/// The number of the next identifier that the translation makes.
#[derive(Clone, Copy)]
pub struct Numbers {
    pub next: u32,
}

impl Numbers {
    /// An identifier of its own. It refuses where the numbers are used up.
    pub fn fresh(&mut self) -> Result<Identifier, AllocError>
        ensures name { IfOk result (λ name. name ≡ Fresh self.old.next) }
        ensures next { OnOk result (self.new.next ≡ suc self.old.next) }
    {
        let number = self.next;
        match number.checked_add(1) {
            Some(next) => {
                self.next = next;
                Ok(Identifier::Fresh(number))
            }
            None => Err(AllocError),
        }
    }

    /// The identifier of a part.
    pub fn part(&mut self, part: &Phrase) -> Result<Identifier, AllocError>
        ensures name { IfOk result (λ name. name ≡ name_or self.old.next (variable_of (view part.now))) }
        ensures next { OnOk result (self.new.next ≡ next_after self.old.next (variable_of (view part.now))) }
    {
        self.name_or(variable_of(part))
    }

    /// A name, or an identifier of its own where there is none.
    pub fn name_or(&mut self, name: Option<Identifier>) -> Result<Identifier, AllocError>
        ensures name { IfOk result (λ x. x ≡ name_or self.old.next name) }
        ensures next { OnOk result (self.new.next ≡ next_after self.old.next name) }
    {
        match name {
            Some(name) => Ok(name),
            None => self.fresh(),
        }
    }

    /// The identifier of a parameter: `_` has one of its own.
    fn parameter(&mut self, parameter: &Phrase) -> Result<Identifier, AllocError>
        ensures name { IfOk result (λ name. name ≡ name_or self.old.next (parameter_of (view parameter.now))) }
        ensures next { OnOk result (self.new.next ≡ next_after self.old.next (parameter_of (view parameter.now))) }
    {
        match parameter {
            Phrase::Var { name, .. } => Ok(Identifier::Word(*name)),
            _ => self.fresh(),
        }
    }

    /// The identifiers of parameters.
    pub fn parameters(
        &mut self,
        alloc: Global,
        parameters: &[Phrase],
    ) -> Result<Sequence<Identifier>, AllocError>
        ensures names { IfOk result (λ names. names ≡ parameter_names self.old.next (of_list (views parameters.now))) }
        ensures next { OnOk result (self.new.next ≡ behind_parameters self.old.next (of_list (views parameters.now))) }
    {
        let mut names = Sequence::new(alloc);
        'parameters: for parameter in parameters {
            let name = self.parameter(parameter)?;
            names.push(name)?;
        }
        Ok(names)
    }

    /// The identifiers of parts, left to right.
    pub fn parts(
        &mut self,
        alloc: Global,
        parts: &[Phrase],
    ) -> Result<Sequence<Identifier>, AllocError>
        ensures names { IfOk result (λ names. names ≡ names_of self.old.next (of_list (views parts.now))) }
        ensures next { OnOk result (self.new.next ≡ behind_names self.old.next (of_list (views parts.now))) }
    {
        let mut names = Sequence::new(alloc);
        'parts: for part in parts {
            let name = self.part(part)?;
            names.push(name)?;
        }
        Ok(names)
    }
}

/// Those that the translation made.
pub fn fresh_among(alloc: Global, names: &[Identifier]) -> Result<Sequence<Identifier>, AllocError>
    ensures { IfOk result (λ fresh. fresh ≡ fresh_among names.now) }
{
    let mut fresh = Sequence::new(alloc);
    'names: for name in names {
        if let Identifier::Fresh(_) = name {
            fresh.push(*name)?;
        }
    }
    Ok(fresh)
}

/// One identifier alone.
pub fn one_name(alloc: Global, name: Identifier) -> Result<Sequence<Identifier>, AllocError>
    ensures { IfOk result (λ names. names ≡ name ∷ []) }
{
    let mut names = Sequence::new(alloc);
    names.push(name)?;
    Ok(names)
}

/// Two identifiers.
pub fn two_names(
    alloc: Global,
    first: Identifier,
    second: Identifier,
) -> Result<Sequence<Identifier>, AllocError>
    ensures { IfOk result (λ names. names ≡ first ∷ second ∷ []) }
{
    let mut names = one_name(alloc, first)?;
    names.push(second)?;
    Ok(names)
}

/// What a chain ends in, where that is a variable and nothing else is left.
#[tactic(auto, using(crate::proofs::Listing::many_no_last))]
pub fn last_variable(elements: &[Phrase]) -> Option<Identifier>
    ensures { result ≡ last_variable (of_list (views elements.now)) }
{
    match elements {
        [element] => variable_of(element),
        _ => None,
    }
}
