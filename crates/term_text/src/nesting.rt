//! The records that are open, by the places of their values, so that one is found without a walk.
ghost use Rattle.std.specs.Prelude.{◌≡◌, ◌∷◌, [], None, nat_eq, position, OnOk, MatchOption};

use indexmap::IndexSet;
use std::alloc::{AllocError, Global};
use std::marker::Model;

/// The places of the values of the records that are open, each once. Contracts see the innermost first.
#[derive(Drop)]
pub struct Nesting {
    /// The outermost first.
    places: IndexSet<u64>,
}

impl Model for Nesting {
    ghost use Rattle.std.specs.Prelude.{ℕ, List, nat_eq, reverse};
    ghost use Rattle.indexmap.specs.IndexSet.{IsUnique};

    ghost Value = { List ℕ };

    ghost view = { λ n. reverse n.places.keys };

    ghost invariant = { λ n. IsUnique nat_eq n.places };
}

impl Nesting {
    /// No record is open. It takes no memory.
    pub fn new(alloc: Global) -> Nesting
        ensures { result ≡ [] }
    {
        Nesting {
            places: IndexSet::new(alloc),
        }
    }

    /// How many records are open inside the one of this place, if that is open. The time does not go with their number.
    pub fn find(&self, place: u64) -> Option<usize>
        ensures { result ≡ position (nat_eq place) self.now }
    {
        let outside = self.places.get_index_of(&place)?;
        Some(self.places.len() - 1 - outside)
    }

    /// One more record is open, inside all others.
    pub fn push(&mut self, place: u64) -> Result<(), AllocError>
        requires { position (nat_eq place) self.old ≡ None }
        ensures { OnOk result (self.new ≡ place ∷ self.old) }
    {
        self.places.insert(place)?;
        Ok(())
    }

    /// The innermost record is closed.
    pub fn pop(&mut self) -> Option<u64>
        ensures { MatchOption result ((self.old ≡ []) × (self.new ≡ [])) (λ place. self.old ≡ place ∷ self.new) }
    {
        self.places.pop()
    }
}
