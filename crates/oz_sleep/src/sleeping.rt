//! The threads of one space that sleep: they wait for variables alone, and by these they are found (CTM 2.4).
ghost use Rattle.std.specs.Prelude.{ℕ, ◌≡◌, ◌&&◌, ◌<◌, ◌∷◌, ◌++◌, not, true, false, if◌then◌else◌, List, Some, Contains, length, map, option_copied, position, IfOk, IfSome, OnOk, OnErr};
ghost use Rattle.std.specs.List.{list_all};
ghost use Rattle.oz_base.specs.Lists.{list_eq};
ghost use Rattle.oz_base.specs.declared.names.Ident.{Ident};
ghost use Rattle.oz_language.specs.declared.kernel.Statement.{Statement};
ghost use Rattle.oz_semantics.specs.Names.{named};
ghost use Rattle.oz_semantics.specs.Store.{View, is_determined};
ghost use Rattle.oz_semantics.specs.Configurations.{is_of, is_open, layer_of};
ghost use Rattle.oz_semantics.specs.Settling.{is_among, runnable};
ghost use Rattle.oz_semantics.specs.Sights as sights;
ghost use Rattle.oz_semantics.specs.declared.configuration.Thread as running;
ghost use Rattle.view_laws.specs.Readies.{SameClasses};
ghost use Rattle.view_laws.specs.Queues.{IsExact};
ghost use Rattle.builtins.specs.Answers.{IsReady};
ghost use Rattle.sleep_laws.specs.Asleep.{waits_only};
ghost use Rattle.sleep_laws.specs.Woken.{top_able};
ghost use Rattle.space_core.specs.Levels.{OfLayer};
ghost use Rattle.oz_sleep.specs.Laid.{Lays, LaysMore, PutsDown, RestsIn, RestsOr};

use builtins::Readiness;
use oz_base::{Copies, Ident, Sequence, SpaceName, same_space};
use oz_language::Statement;
use oz_semantics::Status;
use oz_threads::is_step;
use space_core::Levels;
use statements::ready;
use std::alloc::{AllocError, Global};
use suspension::Sleepers;
use term_store::Store;

/// The threads of a space that sleep, as far as they are known.
#[derive(Drop)]
pub struct Sleeping {
    pub space: SpaceName,
    pub sleepers: Sleepers,
    /// Whether each thread of the space is in the queue or due, or is found among the sleepers.
    pub known: bool,
    /// Whether that was so when the turn began, of which it is yet to be known whether it left it so.
    pub pending: bool,
    /// Whether it was of use to know the sleepers of the space of the thread that stepped.
    pub wanted: bool,
}

/// What a thread waits for, where it waits for variables alone.
fn waits_of(ready: &Readiness) -> Option<&Sequence<Ident>>
    ensures { (view : View) (r : sights.Readiness) → IsReady view r ready.now → IfSome (option_copied result) (λ xs. (ys : List Ident) × (waits_only r ≡ Some ys) × SameClasses view xs ys) }
{
    match ready {
        Readiness::Waits(waits) => Some(waits),
        Readiness::Offers { waits, .. } => Some(waits),
        Readiness::Steps | Readiness::WaitsForState(_) => None,
    }
}

fn are_undetermined(store: &Store, variables: &[Ident]) -> bool
    ensures { result ≡ list_all (λ x. not (is_determined store.now x)) variables.now }
{
    variables
        .iter()
        .all(|variable| !store.is_determined(variable))
}

impl Sleeping {
    /// Nothing is known. It takes no memory.
    pub fn unknown(alloc: Global) -> Sleeping
        ensures known { result.known ≡ false }
        ensures pending { result.pending ≡ false }
    {
        Sleeping {
            space: SpaceName::top(),
            sleepers: Sleepers::new(alloc),
            known: false,
            pending: false,
            wanted: false,
        }
    }

    /// Nothing is known any more.
    pub fn forget(&mut self, alloc: Global)
        ensures { self.new.known ≡ false }
    {
        self.known = false;
        self.sleepers = Sleepers::new(alloc);
    }

    /// A turn begins: what is known is pending until it is found what the turn leaves of it.
    pub fn begin_turn(&mut self)
        ensures { self.new ≡ record self.old { known = false; pending = self.old.known } }
    {
        self.pending = self.known;
        self.known = false;
    }

    /// The turn left it so.
    pub fn resume(&mut self)
        ensures { self.new ≡ record self.old { known = self.old.pending } }
    {
        self.known = self.pending;
    }

    /// The turn is over. Where it left nothing known that was so before, that is to be found again.
    pub fn end_turn(&mut self)
        ensures { self.new ≡ record self.old { wanted = self.new.wanted } }
    {
        if self.pending && !self.known {
            self.wanted = true;
        }
    }

    /// It is of use to know the sleepers, but those that are known are of another space, or may not be found any more.
    pub fn want(&mut self)
        ensures known { self.new.known ≡ self.old.known }
        ensures pending { self.new.pending ≡ false }
    {
        self.pending = false;
        self.wanted = true;
    }

    /// What was known is not known after this turn.
    pub fn drop_pending(&mut self)
        ensures known { self.new.known ≡ self.old.known }
        ensures pending { self.new.pending ≡ false }
    {
        self.wanted = self.wanted || self.pending;
        self.pending = false;
    }

    /// Whether the sleepers of this space are known, unless the turn changes that.
    pub fn awaits(&self, space: &SpaceName) -> bool
        ensures { result ≡ self.now.pending && list_eq self.now.space space.now }
    {
        self.pending && same_space(&self.space, space)
    }

    /// Whether the sleepers of this space are known.
    pub fn attends(&self, space: &SpaceName) -> bool
        ensures { result ≡ self.now.known && list_eq self.now.space space.now }
    {
        self.known && same_space(&self.space, space)
    }

    /// Whether nothing is known, or the sleepers of this space.
    pub fn keep_for(&mut self, alloc: Global, space: &SpaceName)
        ensures { self.new.known ≡ true → (self.new ≡ self.old) × (list_eq self.old.space space.now ≡ true) }
    {
        if self.known && !same_space(&self.space, space) {
            self.forget(alloc);
        }
    }

    /// Whether it was put down.
    fn put(&mut self, alloc: Global, store: &Store, number: u64, ready: &Readiness) -> bool
        ensures { (r : sights.Readiness) → IsReady store.now r ready.now → self.old.known ≡ true → result ≡ true → PutsDown store.now number r self.old self.new }
    {
        let Some(waits) = waits_of(ready) else {
            return false;
        };
        if !are_undetermined(store, waits.as_slice()) {
            return false;
        }
        match self
            .sleepers
            .fall_asleep(alloc, store, number, waits.as_slice())
        {
            Ok(()) => true,
            Err(_) => false,
        }
    }

    /// A thread that can't step falls asleep, or nothing is known any more.
    fn lay(&mut self, alloc: Global, store: &Store, number: u64, ready: &Readiness)
        ensures { (r : sights.Readiness) → IsReady store.now r ready.now → self.old.known ≡ true → self.new.known ≡ true → PutsDown store.now number r self.old self.new }
    {
        if !self.put(alloc, store, number, ready) {
            self.forget(alloc);
        }
    }

    /// Whether a thread can step, by what its space sees. Where it can't and is one of those that are known, it falls asleep.
    pub fn asks(
        &mut self,
        alloc: Global,
        statements: &[Statement],
        levels: &Levels,
        id: &Ident,
    ) -> Result<bool, AllocError>
        ensures able { IfOk result (λ able. able ≡ top_able statements.now levels.now id.now) }
        ensures more { LaysMore levels.now self.old self.new }
        ensures rests { IfOk result (λ able. able ≡ false → RestsIn statements.now levels.now self.new id.now) }
    {
        let Some(place) = levels.place(&id.space) else {
            return Ok(false);
        };
        let Some(frame) = levels.top_frame(id) else {
            return Ok(false);
        };
        let store = levels.store_at(place);
        let ready = ready(alloc, statements, &id.space, store, frame)?;
        if is_step(&ready) {
            return Ok(true);
        }
        if self.attends(&id.space) {
            self.lay(alloc, store, id.number, &ready);
        }
        Ok(false)
    }

    /// A thread falls asleep, if it is one of those that are known, and can't step.
    pub fn lay_down(&mut self, alloc: Global, statements: &[Statement], levels: &Levels, id: &Ident)
        ensures more { LaysMore levels.now self.old self.new }
        ensures rests { top_able statements.now levels.now id.now ≡ false → RestsIn statements.now levels.now self.new id.now }
    {
        match self.asks(alloc, statements, levels, id) {
            Ok(_) => {}
            Err(_) => self.forget(alloc),
        }
    }

    fn lay_all(
        &mut self,
        alloc: Global,
        statements: &[Statement],
        levels: &Levels,
        place: usize,
    ) -> Result<(), AllocError>
        requires { place < length levels.now }
        ensures more { LaysMore levels.now self.old self.new }
        ensures rests { OnOk result (OfLayer levels.now place (λ l. (t : running.Thread) → Contains l.threads t
            → RestsOr statements.now levels.now self.new (named self.old.space t.number))) }
    {
        for thread in levels.threads_at(place) {
            let id = Ident {
                space: self.space.copied(alloc)?,
                number: thread.number,
            };
            self.lay_down(alloc, statements, levels, &id);
            if !self.known {
                return Ok(());
            }
        }
        Ok(())
    }

    fn learn_at(
        &mut self,
        alloc: Global,
        statements: &[Statement],
        levels: &Levels,
        space: &SpaceName,
        place: usize,
    ) -> Result<(), AllocError>
        requires within { place < length levels.now }
        requires place { Some place ≡ position (is_of space.now) levels.now }
        ensures { OnOk result ((ids : List Ident) → ((id : Ident) → id.space ≡ space.now → top_able statements.now levels.now id ≡ true → Contains ids id) → Lays statements.now levels.now self.new ids) }
    {
        self.space = space.copied(alloc)?;
        self.sleepers = Sleepers::new(alloc);
        self.known = true;
        self.lay_all(alloc, statements, levels, place)
    }

    /// Where it was of use to know them and everybody was asked, the threads of the space that can't step fall asleep.
    pub fn learn(
        &mut self,
        alloc: Global,
        statements: &[Statement],
        levels: &Levels,
        space: &SpaceName,
    )
        ensures { (ids : List Ident) → IsExact statements.now levels.now ids → Lays statements.now levels.now self.new ids }
    {
        self.forget(alloc);
        if !self.wanted {
            return;
        }
        self.wanted = false;
        let Some(place) = levels.place(space) else {
            return;
        };
        if !is_crowded(levels, place) {
            return;
        }
        match self.learn_at(alloc, statements, levels, space, place) {
            Ok(()) => {}
            Err(_) => self.forget(alloc),
        }
    }
}

/// For so few threads of a space it is of no use to know who sleeps.
const FEW: usize = 4;

/// Whether a space is open and has more than a few threads.
fn is_crowded(levels: &Levels, place: usize) -> bool
    requires { place < length levels.now }
    ensures { result ≡ true → OfLayer levels.now place (λ l. is_open l.status ≡ true) }
{
    matches!(levels.status_at(place), Status::Open) && levels.threads_at(place).len() > FEW
}

impl Copies for Sleeping {
    /// It shares the lists of the sleepers.
    fn copied(&self, alloc: Global) -> Result<Self, AllocError> {
        Ok(Sleeping {
            space: self.space.copied(alloc)?,
            sleepers: self.sleepers.copied(alloc)?,
            known: self.known,
            pending: self.pending,
            wanted: self.wanted,
        })
    }
}
