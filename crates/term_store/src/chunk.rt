//! A chunk of tells.
ghost use Rattle.std.specs.Prelude.{◌≡◌, IfOk, IfErr, option_copied};

use oz_base::Copies;
use oz_semantics::Tell;
use std::alloc::{AllocError, Global};
use std::marker::Model;
use std::sync::Arc;

/// Tells, which copies share. Contracts see their list.
#[derive(Drop)]
pub struct Chunk {
    tells: Arc<Vec<Tell>, Global>,
}

impl Model for Chunk {
    ghost use Rattle.std.specs.Prelude.{List};
    ghost use Rattle.std.specs.Coded.{codes};
    ghost use Rattle.std.specs.Arc.{arc_value};
    ghost use Rattle.environments.specs.contracts.environment.Environment as environment;
    ghost use Rattle.oz_semantics.specs.declared.value.Tell.{Tell};

    ghost Value = { List Tell };

    ghost coded = { Prim.hlevel (codes, environment.the_row.coded) };

    ghost view = { λ c. (arc_value c.tells).items };
}

impl Chunk {
    /// The tells, none of which is copied. Where there is no memory, they are handed back.
    pub fn new(alloc: Global, tells: Vec<Tell>) -> Result<Chunk, Vec<Tell>>
        ensures chunk { IfOk result (λ chunk. chunk ≡ tells.items) }
        ensures back { IfErr result (λ back. back ≡ tells) }
    {
        match Arc::new(alloc, tells) {
            Ok(tells) => Ok(Chunk { tells }),
            Err(refused) => Err(refused.value),
        }
    }

    pub fn as_slice(&self) -> &[Tell]
        ensures { result.now ≡ self.now }
    {
        let tells: &Vec<Tell> = &self.tells;
        tells.as_slice()
    }
}

impl Copies for Chunk {
    fn copied(&self, _alloc: Global) -> Result<Self, AllocError> {
        Ok(Chunk {
            tells: Arc::try_clone(&self.tells)?,
        })
    }
}

/// A copy of the chunk, if there is one.
pub fn copy_of(alloc: Global, chunk: Option<&Chunk>) -> Result<Option<Chunk>, AllocError>
    ensures { IfOk result (λ copy. copy ≡ option_copied chunk.entry) }
{
    match chunk {
        None => Ok(None),
        Some(chunk) => Ok(Some(chunk.copied(alloc)?)),
    }
}
