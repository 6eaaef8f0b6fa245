//! Keys and candidates.
ghost use Rattle.std.specs.Prelude.{◌≡◌, ◌++◌, ◌∷◌, [], List, ℕ, flat_map, length, position, slice_get, IfOk, OnOk};
ghost use Rattle.std.specs.List.{list_all};
ghost use Rattle.oz_base.specs.declared.names.Ident.{Ident};
ghost use Rattle.oz_base.specs.declared.relation.Relation.{Relation};
ghost use Rattle.oz_laws.specs.Touched.{Touches};
ghost use Rattle.oz_semantics.specs.Propagation.{is_due};
ghost use Rattle.oz_semantics.specs.Store.{View};
ghost use Rattle.oz_semantics.specs.declared.configuration.LastRun.TheVariants.{Never};
ghost use Rattle.oz_semantics.specs.declared.configuration.Propagator.{Propagator};
ghost use Rattle.watching.specs.Changes.{Gains, Wakes, Rejoins, IsRun, list_in, is_due_at};
ghost use Rattle.watching.specs.Watching.{Tracks, Foresees, joins_nothing, touched_by};

use crate::candidates::{add, add_all};
use crate::keys::Keys;
use crate::tells::{all_domainless, has_domain, has_value, join_nothing, joins_free};
use crate::watch::Foresight;
use oz_base::{Copies, Ident, Sequence};
use oz_semantics::{Propagator, Tell};
use propagation::is_due;
use std::alloc::{AllocError, Global};
use term_store::Store;

/// The propagators that may be due, while it is known which.
#[derive(Drop)]
pub struct Watched {
    pub keys: Keys,
    /// The indices of those that may be due. They ascend.
    pub due: Sequence<usize>,
}

fn is_due_at(store: &Store, propagators: &[Propagator], index: usize) -> bool
    ensures { result ≡ is_due_at store.now propagators.now index }
{
    match propagators.get(index) {
        None => false,
        Some(propagator) => is_due(store, propagator),
    }
}

fn first_of(indices: &[usize]) -> Option<usize>
    ensures { result ≡ slice_get indices.now 0 }
{
    match indices.first() {
        None => None,
        Some(index) => Some(*index),
    }
}

impl Watched {
    /// No propagators. It takes no memory.
    pub fn new(alloc: Global) -> Watched
        ensures { (view : View) → Tracks view [] result }
    {
        Watched {
            keys: Keys::new(alloc),
            due: Sequence::new(alloc),
        }
    }

    /// Adds the list of a key to the candidates.
    fn wake(&mut self, key: &Ident) -> Result<(), AllocError>
        ensures keys { OnOk result (self.new.keys ≡ self.old.keys) }
        ensures due { OnOk result (Gains self.old.due self.new.due (list_in self.old.keys key.now)) }
    {
        match self.keys.lists.get(key) {
            None => Ok(()),
            Some(list) => add_all(&mut self.due, list),
        }
    }

    /// The propagators that have a variable of the class may be due.
    fn attend(&mut self, alloc: Global, store: &Store, variable: &Ident) -> Result<(), AllocError>
        ensures { OnOk result ((ps : List Propagator) → Tracks store.now ps self.old → Wakes store.now ps (variable.now ∷ []) self.old self.new) }
    {
        if !has_domain(store, variable) {
            return Ok(());
        }
        let root = store.classes().root(variable);
        self.keys.make(alloc, store, root)?;
        self.wake(root)
    }

    fn attend_tell(&mut self, alloc: Global, store: &Store, tell: &Tell) -> Result<(), AllocError>
        ensures { OnOk result ((ps : List Propagator) → Tracks store.now ps self.old → Wakes store.now ps (touched_by store.now tell.now) self.old self.new) }
    {
        match tell {
            Tell::Equal { .. } => Ok(()),
            Tell::Is { variable, .. } => {
                if has_value(store, variable) {
                    return Ok(());
                }
                self.attend(alloc, store, variable)
            }
            Tell::Within { variable, .. } => {
                if !store.is_news(tell) {
                    return Ok(());
                }
                self.attend(alloc, store, variable)
            }
        }
    }

    fn attend_all(&mut self, alloc: Global, store: &Store, tells: &[Tell]) -> Result<(), AllocError>
        ensures { OnOk result ((ps : List Propagator) → Tracks store.now ps self.old
            → Wakes store.now ps (flat_map (touched_by store.now) tells.now) self.old self.new) }
    {
        for tell in tells {
            self.attend_tell(alloc, store, tell)?;
        }
        Ok(())
    }

    /// Notes what a tell may make due, as far as that can be known before it is told.
    pub fn foresee(
        &mut self,
        alloc: Global,
        store: &Store,
        tells: &[Tell],
    ) -> Result<Foresight, AllocError>
        ensures { IfOk result (λ foresight. (ps : List Propagator) → Tracks store.now ps self.old → Foresees store.now tells.now ps self.new foresight) }
    {
        if self.keys.is_empty() {
            return Ok(Foresight::Fresh);
        }
        if joins_free(store, tells) {
            return Ok(Foresight::Settled);
        }
        if !join_nothing(tells) {
            return Ok(Foresight::Joins);
        }
        if all_domainless(store, tells) {
            return Ok(Foresight::Fresh);
        }
        self.attend_all(alloc, store, tells)?;
        Ok(Foresight::Settled)
    }

    /// One key stands for the class of a variable that was touched, and the propagators in its list may be due.
    fn rejoin(&mut self, alloc: Global, store: &Store, variable: &Ident) -> Result<(), AllocError>
        ensures { OnOk result ((old : View) (ps : List Propagator) (done rest : List Ident) → Rejoins old store.now ps done (variable.now ∷ rest) self.old
            → Rejoins old store.now ps (done ++ variable.now ∷ []) rest self.new) }
    {
        if !has_domain(store, variable) {
            return Ok(());
        }
        let root = store.classes().root(variable);
        if !self.keys.any_equal(store, root) {
            return Ok(());
        }
        self.keys.gather(alloc, store, root)?;
        self.wake(root)
    }

    fn rejoin_all(
        &mut self,
        alloc: Global,
        store: &Store,
        noted: &[Ident],
    ) -> Result<(), AllocError>
        ensures { OnOk result ((old : View) (ps : List Propagator) → Rejoins old store.now ps [] noted.now self.old → Rejoins old store.now ps noted.now [] self.new) }
    {
        for variable in noted {
            self.rejoin(alloc, store, variable)?;
        }
        Ok(())
    }

    /// Goes on after a tell that was foreseen, of which these variables were noted.
    pub fn follow(
        &mut self,
        alloc: Global,
        store: &Store,
        tells: &[Tell],
        noted: &[Ident],
        foresight: Foresight,
    ) -> Result<(), AllocError>
        ensures { OnOk result ((old : View) (ps : List Propagator) → Foresees old tells.now ps self.old foresight → store.now ≡ old ++ tells.now
            → Touches old tells.now noted.now → Tracks store.now ps self.new) }
    {
        store.consistent();
        match foresight {
            Foresight::Settled => Ok(()),
            Foresight::Fresh => self.keys.adopt_all(alloc, store, tells),
            Foresight::Joins => self.rejoin_all(alloc, store, noted),
        }
    }

    /// A propagator that has these variables stands at the index.
    pub fn post(
        &mut self,
        alloc: Global,
        store: &Store,
        index: usize,
        variables: &[Ident],
    ) -> Result<(), AllocError>
        ensures { OnOk result ((ps : List Propagator) (r : Relation) → Tracks store.now ps self.old → length ps ≡ index
            → Tracks store.now (ps ++ record { relation = r; variables = variables.now; last = Never } ∷ []) self.new) }
    {
        self.keys.watch_all(alloc, store, variables, index)?;
        add(&mut self.due, index)
    }

    /// The propagator at the index ran.
    pub fn run(&mut self, index: usize) -> Result<(), AllocError>
        ensures { OnOk result ((view : View) (ps qs : List Propagator) → Tracks view ps self.old → IsRun index ps qs → Tracks view qs self.new) }
    {
        add(&mut self.due, index)
    }

    /// The place of the first propagator that is due.
    pub fn first_due(&self, store: &Store, propagators: &[Propagator]) -> Option<usize>
        ensures { Tracks store.now propagators.now self.now → result ≡ position (is_due store.now) propagators.now }
    {
        for index in self.due.as_slice() {
            if is_due_at(store, propagators, *index) {
                return Some(*index);
            }
        }
        None
    }

    /// Drops the candidates before the first that is due.
    pub fn settle(&mut self, store: &Store, propagators: &[Propagator])
        ensures { Tracks store.now propagators.now self.old → Tracks store.now propagators.now self.new }
    {
        'candidates: while let Some(index) = first_of(self.due.as_slice()) {
            if is_due_at(store, propagators, index) {
                return;
            }
            let _dropped = self.due.take_front();
        }
    }
}

impl Copies for Watched {
    fn copied(&self, alloc: Global) -> Result<Self, AllocError> {
        Ok(Watched {
            keys: self.keys.copied(alloc)?,
            due: self.due.copied(alloc)?,
        })
    }
}
