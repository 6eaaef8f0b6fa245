//! An environment, as recent bindings in front of a map from the numbers of identifiers to variables.
ghost use Rattle.std.specs.Prelude.{◌≡◌, length, IfOk, OnOk, OnErr, option_copied};
ghost use Rattle.environments.specs.Environments.{code, unbound, bound_in, binding, binding_all, renamed};
ghost use Rattle.renamings.specs.Renames.{ident_by};
ghost use Rattle.renamings.specs.declared.given.Kind.TheVariants.{Variable};

use crate::recent::Recent;
use oz_base::{Copies, Ident};
use oz_language::Identifier;
use renamings::Renaming;
use std::alloc::{AllocError, Global};
use std::marker::Model;

/// How many bindings stand before the map at most.
const MOST_RECENT: u64 = 16;

/// Which variable each identifier stands for. Contracts see the finite map.
///
/// A copy takes constant time and no memory, and what is bound later in one is not seen in the other. The newest bindings stand in
/// front of a map that holds the older ones: a binding makes one cell and copies nothing, but for one binding in sixteen, which
/// first puts those in front into the map. A look-up passes them, and then takes a time that grows with the number of digits of
/// the identifier's number alone.
#[derive(Drop)]
pub struct Environment {
    recent: Recent,
    /// How many stand before the map.
    count: u64,
}

impl Model for Environment {
    ghost use Rattle.std.specs.Prelude.{◌≡◌, ◌≤◌};
    ghost use Rattle.std.specs.FinMap as maps;
    ghost use Rattle.std.specs.Coded.{codes};
    ghost use Rattle.environments.specs.Environments.{Environment};
    ghost use Rattle.environments.specs.Recents.{cells, meant};
    ghost use Rattle.environments.specs.declared.environment.TheConstants.{MOST_RECENT};

    ghost Value = { Environment };

    ghost coded = { Prim.hlevel (codes, maps.code) };

    ghost view = { λ e. meant e.recent };

    ghost invariant = { λ e. (e.count ≡ cells e.recent) × (e.count ≤ MOST_RECENT) };
}

/// The number of an identifier.
fn code(name: Identifier) -> u64
    ensures { result ≡ code name }
{
    match name {
        Identifier::Word(number) => 2 * u64::from(number),
        Identifier::Fresh(number) => 2 * u64::from(number) + 1,
    }
}

impl Environment {
    /// In which no identifier stands for anything. It takes no memory.
    pub fn new() -> Self
        ensures { result ≡ unbound }
    {
        Environment {
            recent: Recent::nothing(),
            count: 0,
        }
    }

    /// The variable of an identifier, if it has one.
    pub fn bound(&self, name: Identifier) -> Option<&Ident>
        ensures { option_copied result ≡ bound_in self.now name }
    {
        self.recent.get(code(name))
    }

    /// The identifier stands for the variable from now on. An error is for lack of memory, and leaves the environment.
    pub fn bind(
        &mut self,
        alloc: Global,
        name: Identifier,
        variable: Ident,
    ) -> Result<(), AllocError>
        ensures ok { OnOk result (self.new ≡ binding name variable self.old) }
        ensures err { OnErr result (self.new ≡ self.old) }
    {
        let code = code(name);
        if self.count < MOST_RECENT {
            self.recent.push(alloc, code, variable)?;
            self.count += 1;
            return Ok(());
        }
        let mut recent = Recent::Over(self.recent.gathered(alloc)?);
        recent.push(alloc, code, variable)?;
        self.recent = recent;
        self.count = 1;
        Ok(())
    }

    /// Puts the newest bindings into the map where they are many: then one that is copied often has room for others in front. What
    /// identifiers stand for stays.
    pub fn gather(&mut self, alloc: Global) -> Result<(), AllocError>
        ensures { self.new ≡ self.old }
    {
        if self.count <= MOST_RECENT / 2 {
            return Ok(());
        }
        self.recent = Recent::Over(self.recent.gathered(alloc)?);
        self.count = 0;
        Ok(())
    }

    /// An environment in which each of these stands for the variable at its place, and all others for what they do here. Of one
    /// that stands twice the first place counts.
    pub fn extended(
        &self,
        alloc: Global,
        names: &[Identifier],
        variables: &[Ident],
    ) -> Result<Self, AllocError>
        requires { length names.now ≡ length variables.now }
        ensures { IfOk result (λ extended. extended ≡ binding_all names.now variables.now self.now) }
    {
        let mut extended = self.copied(alloc)?;
        let mut left = names.len();
        'names: while left > 0 {
            left -= 1;
            extended.bind(alloc, names[left], variables[left].copied(alloc)?)?;
        }
        Ok(extended)
    }
}

impl Environment {
    /// An environment in which each identifier stands for the variable of the new name. It takes a time that grows with the number of
    /// bindings, and shares of the older ones what keeps its names. It refuses a number above 2^64 - 1.
    pub fn renamed(&self, alloc: Global, by: &Renaming) -> Result<Self, AllocError>
        ensures { IfOk result (λ after. after ≡ renamed (ident_by Variable by.now) self.now) }
    {
        Ok(Environment {
            recent: self.recent.renamed(alloc, by)?,
            count: self.count,
        })
    }
}

impl Copies for Environment {
    /// In constant time.
    fn copied(&self, alloc: Global) -> Result<Self, AllocError> {
        Ok(Environment {
            recent: self.recent.shared(alloc)?,
            count: self.count,
        })
    }
}
