//! What a class keeps of a variable.
ghost use Rattle.std.specs.Prelude.{◌≡◌};
ghost use Rattle.term_store.specs.Classes.{nothing};

use crate::class_domain::ClassDomain;
use oz_base::{Copies, Ident, Shared};
use std::alloc::{AllocError, Global};

/// What is kept of a class.
#[derive(Drop)]
pub struct Kept {
    /// The place at which the first value of the class was told.
    pub first: Option<u64>,
    /// The integers that all domains have which were told of the class.
    pub domain: Option<Shared<ClassDomain>>,
}

impl Kept {
    pub fn nothing() -> Kept
        ensures { result ≡ nothing }
    {
        Kept {
            first: None,
            domain: None,
        }
    }
}

impl Copies for Kept {
    fn copied(&self, alloc: Global) -> Result<Self, AllocError> {
        let first = self.first;
        match &self.domain {
            None => Ok(Kept {
                first,
                domain: None,
            }),
            Some(domain) => Ok(Kept {
                first,
                domain: Some(domain.copied(alloc)?),
            }),
        }
    }
}

/// What is kept of a variable. One of which nothing is kept is alone in its class, with no value and no domain.
#[derive(Drop)]
pub enum Cell {
    /// It stands below another variable of its class.
    Below { parent: Ident, rank: u8 },
    /// It stands for its class.
    Root { rank: u8, kept: Kept },
}

impl Copies for Cell {
    fn copied(&self, alloc: Global) -> Result<Self, AllocError> {
        match self {
            Cell::Below { parent, rank } => Ok(Cell::Below {
                parent: parent.copied(alloc)?,
                rank: *rank,
            }),
            Cell::Root { rank, kept } => Ok(Cell::Root {
                rank: *rank,
                kept: kept.copied(alloc)?,
            }),
        }
    }
}
