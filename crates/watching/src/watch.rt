//! What may be due.
ghost use Rattle.std.specs.Prelude.{◌≡◌, ◌++◌, ◌∷◌, [], List, ℕ, false, length, position, take};
ghost use Rattle.std.specs.List.{list_any};
ghost use Rattle.oz_base.specs.declared.relation.Relation.{Relation};
ghost use Rattle.oz_laws.specs.Touched.{Touches};
ghost use Rattle.oz_semantics.specs.Propagation.{is_due};
ghost use Rattle.oz_semantics.specs.Store.{View};
ghost use Rattle.oz_semantics.specs.declared.configuration.LastRun.TheVariants.{Never};
ghost use Rattle.oz_semantics.specs.declared.configuration.Propagator.{Propagator};
ghost use Rattle.watching.specs.Changes.{IsRun};
ghost use Rattle.watching.specs.Watching.{Knows, Foretells};

use crate::watched::Watched;
use oz_base::{Copies, Ident};
use oz_semantics::{Propagator, Tell};
use propagation::first_due;
use std::alloc::{AllocError, Global};
use term_store::Store;

/// What is known of a tell before it is told.
#[derive(Clone, Copy)]
pub enum Foresight {
    /// All that it may make due is noted.
    Settled,
    /// So it is, and no key is equal to a variable that is told a domain.
    Fresh,
    /// It may make keys equal, or nothing was looked at.
    Joins,
}

/// Which propagators of a space may be due, kept from tell to tell.
///
/// Where it was refused memory, or a propagator has a variable without a domain, it is lost: then each may be due, and all are looked at.
/// Nothing here fails.
#[derive(Drop)]
pub struct Watch {
    watched: Watched,
    lost: bool,
}

impl Watch {
    /// No propagators. It takes no memory.
    pub fn new(alloc: Global) -> Watch
        ensures knows { (view : View) → Knows view [] result }
        ensures known { result.lost ≡ false }
    {
        Watch {
            watched: Watched::new(alloc),
            lost: false,
        }
    }

    /// Each propagator may be due. It takes no memory.
    pub fn lost(alloc: Global) -> Watch
        ensures { (view : View) (ps : List Propagator) → Knows view ps result }
    {
        Watch {
            watched: Watched::new(alloc),
            lost: true,
        }
    }

    /// Notes what a tell may make due, as far as that can be known before it is told. It may be told then, or not.
    ///
    /// A tell that makes no two variables equal takes a time that grows with the logarithm of the number of variables, and that of the
    /// candidates.
    pub fn foresee(&mut self, alloc: Global, store: &Store, tells: &[Tell]) -> Foresight
        ensures foretells { (ps : List Propagator) → Knows store.now ps self.old → Foretells store.now tells.now ps result self.new }
        ensures keeps { (ps : List Propagator) → Knows store.now ps self.old → Knows store.now ps self.new }
    {
        if self.lost {
            return Foresight::Joins;
        }
        match self.watched.foresee(alloc, store, tells) {
            Ok(foresight) => foresight,
            Err(_) => {
                self.lost = true;
                Foresight::Joins
            }
        }
    }

    /// Goes on after a tell that was foreseen, of which the store noted these variables.
    ///
    /// Only where variables were made equal, and have domains, all keys are looked at.
    pub fn follow(
        &mut self,
        alloc: Global,
        store: &Store,
        tells: &[Tell],
        noted: &[Ident],
        foresight: Foresight,
    )
        ensures { (old : View) (ps : List Propagator) → Foretells old tells.now ps foresight self.old → store.now ≡ old ++ tells.now
            → Touches old tells.now noted.now → Knows store.now ps self.new }
    {
        if self.lost {
            return;
        }
        if self
            .watched
            .follow(alloc, store, tells, noted, foresight)
            .is_err()
        {
            self.lost = true;
        }
    }

    /// A propagator that has these variables was posted behind the others, and stands at this index.
    pub fn posted(&mut self, alloc: Global, store: &Store, index: usize, variables: &[Ident])
        ensures { (ps : List Propagator) (r : Relation) → Knows store.now ps self.old → length ps ≡ index
            → Knows store.now (ps ++ record { relation = r; variables = variables.now; last = Never } ∷ []) self.new }
    {
        if self.lost {
            return;
        }
        if self.watched.post(alloc, store, index, variables).is_err() {
            self.lost = true;
        }
    }

    /// The propagator at the index ran. It may be due again.
    pub fn ran(&mut self, index: usize)
        ensures { (view : View) (ps qs : List Propagator) → Knows view ps self.old → IsRun index ps qs → Knows view qs self.new }
    {
        if self.lost {
            return;
        }
        if self.watched.run(index).is_err() {
            self.lost = true;
        }
    }

    /// Only the first so many propagators are left. Nothing: it holds a law.
    pub fn kept_first(&self, count: usize)
        ensures { (view : View) (ps : List Propagator) → Knows view ps self.now → Knows view (take count ps) self.now }
    {
        let _ = count;
    }

    /// The place of the first propagator that is due. It looks at the candidates up to that.
    pub fn first_due(&self, store: &Store, propagators: &[Propagator]) -> Option<usize>
        ensures { Knows store.now propagators.now self.now → result ≡ position (is_due store.now) propagators.now }
    {
        if self.lost {
            return first_due(store, propagators);
        }
        self.watched.first_due(store, propagators)
    }

    /// Whether a propagator is due.
    pub fn has_due(&self, store: &Store, propagators: &[Propagator]) -> bool
        ensures { Knows store.now propagators.now self.now → result ≡ list_any (is_due store.now) propagators.now }
    {
        self.first_due(store, propagators).is_some()
    }

    /// Drops the candidates before the first that is due, so that they are not looked at again.
    pub fn settle(&mut self, store: &Store, propagators: &[Propagator])
        ensures { Knows store.now propagators.now self.old → Knows store.now propagators.now self.new }
    {
        if self.lost {
            return;
        }
        self.watched.settle(store, propagators);
    }
}

impl Copies for Watch {
    /// It shares the lists, and takes the time and memory of the candidates.
    fn copied(&self, alloc: Global) -> Result<Self, AllocError> {
        Ok(Watch {
            watched: self.watched.copied(alloc)?,
            lost: self.lost,
        })
    }
}
