//! Bindings: the newest in cells that copies share, and behind them a map with the older ones.
ghost use Rattle.std.specs.Prelude.{◌≡◌, ◌+◌, IfOk, OnOk, OnErr, option_copied};
ghost use Rattle.std.specs.FinMap as maps;
ghost use Rattle.environments.specs.Environments.{renamed};
ghost use Rattle.environments.specs.Recents.{cells, meant};
ghost use Rattle.renamings.specs.Renames.{ident_by};
ghost use Rattle.renamings.specs.declared.given.Kind.TheVariants.{Variable};

use oz_base::{Copies, Ident};
use renamings::{Kind, Renaming};
use shared_map::{Change, SharedMap};
use std::alloc::{AllocError, Global};
use std::mem;
use std::sync::Arc;

/// Bindings, of which the newest stands first, and a map behind the last of them.
#[cycle(recent)]
#[derive(Drop)]
pub enum Recent {
    Over(SharedMap<Ident>),
    Newest(Arc<Binding, Global>),
}

/// One binding, and those that were made before it.
#[cycle(recent)]
#[derive(Drop)]
pub struct Binding {
    code: u64,
    variable: Ident,
    older: Recent,
}

impl Binding {
    fn into_older(self) -> Recent
        ensures meant { meant result ≡ meant self.older }
        ensures cells { cells result ≡ cells self.older }
    {
        let Binding {
            code: _,
            variable: _,
            older,
        } = self;
        older
    }
}

/// The new names of variables.
#[derive(Drop)]
struct Variables<'a> {
    by: &'a Renaming,
}

impl<'a> Change<Ident> for Variables<'a> {
    ghost changed = { λ variables. ident_by Variable variables.by.now };

    fn changed(&self, alloc: Global, variable: &Ident) -> Result<Ident, AllocError> {
        self.by.ident(alloc, Kind::Variable, variable)
    }

    fn keeps(&self, variable: &Ident) -> bool {
        self.by.keeps(variable)
    }
}

impl Recent {
    /// No binding. It takes no memory.
    pub fn nothing() -> Self
        ensures meant { meant result ≡ maps.empty }
        ensures cells { cells result ≡ 0 }
    {
        Recent::Over(SharedMap::new())
    }

    /// The variable of a number.
    pub fn get(&self, code: u64) -> Option<&Ident>
        ensures { option_copied result ≡ maps.get (meant self.now) code }
    {
        let mut left = self;
        'cells: loop {
            match left {
                Recent::Over(map) => return map.get(code),
                Recent::Newest(binding) => {
                    if binding.code == code {
                        return Some(&binding.variable);
                    }
                    left = &binding.older;
                }
            }
        }
    }

    /// Puts a binding in front. An error is for lack of memory, and leaves the others.
    pub fn push(&mut self, alloc: Global, code: u64, variable: Ident) -> Result<(), AllocError>
        ensures ok { OnOk result (meant self.new ≡ maps.insert (meant self.old) code variable) }
        ensures more { OnOk result (cells self.new ≡ cells self.old + 1) }
        ensures err { OnErr result (meant self.new ≡ meant self.old) }
        ensures as_many { OnErr result (cells self.new ≡ cells self.old) }
    {
        let older = mem::replace(self, Recent::nothing());
        let binding = Binding {
            code,
            variable,
            older,
        };
        match Arc::new(alloc, binding) {
            Ok(newest) => {
                *self = Recent::Newest(newest);
                Ok(())
            }
            Err(failed) => {
                *self = failed.value.into_older();
                Err(AllocError)
            }
        }
    }

    /// In constant time, and without memory.
    pub fn shared(&self, alloc: Global) -> Result<Self, AllocError>
        ensures meant { IfOk result (λ copy. meant copy ≡ meant self.now) }
        ensures cells { IfOk result (λ copy. cells copy ≡ cells self.now) }
    {
        match self {
            Recent::Over(map) => Ok(Recent::Over(map.copied(alloc)?)),
            Recent::Newest(binding) => Ok(Recent::Newest(Arc::try_clone(binding)?)),
        }
    }

    /// A map with all bindings.
    pub fn gathered(&self, alloc: Global) -> Result<SharedMap<Ident>, AllocError>
        ensures { IfOk result (λ map. map ≡ meant self.now) }
    {
        match self {
            Recent::Over(map) => map.copied(alloc),
            Recent::Newest(binding) => {
                let mut map = binding.older.gathered(alloc)?;
                let _was = map.insert(alloc, binding.code, binding.variable.copied(alloc)?)?;
                Ok(map)
            }
        }
    }

    /// The variables under their new names. The cells take memory of their own.
    pub fn renamed(&self, alloc: Global, by: &Renaming) -> Result<Self, AllocError>
        ensures meant { IfOk result (λ after. meant after ≡ renamed (ident_by Variable by.now) (meant self.now)) }
        ensures cells { IfOk result (λ after. cells after ≡ cells self.now) }
    {
        match self {
            Recent::Over(map) => Ok(Recent::Over(map.changed(alloc, &Variables { by })?)),
            Recent::Newest(binding) => {
                let mut after = binding.older.renamed(alloc, by)?;
                let variable = by.ident(alloc, Kind::Variable, &binding.variable)?;
                after.push(alloc, binding.code, variable)?;
                Ok(after)
            }
        }
    }
}
