//! What a space sees, and its propagators.
ghost use Rattle.std.specs.Prelude.{ℕ, ◌≡◌, ◌≤◌, ◌<◌, ◌++◌, ◌∷◌, [], List, None, length, position, take, IfOk, OnOk, OnErr, MatchOption};
ghost use Rattle.oz_laws.specs.Touched.{Touches};
ghost use Rattle.oz_semantics.specs.Propagation.{is_due};
ghost use Rattle.oz_semantics.specs.Store.{View};
ghost use Rattle.oz_semantics.specs.declared.configuration.LastRun.TheVariants.{Saw};
ghost use Rattle.oz_semantics.specs.declared.configuration.Propagator as propagators;
ghost use Rattle.space_core.specs.Constraints.{IsStoreTold, IsStoreClash, noting_last};
ghost use Rattle.space_core.specs.Firing.{at_place};
ghost use Rattle.watching.specs.Watching.{Foretells, Knows};

use oz_base::{Copies, Ident, Interval, Sequence, Shared};
use oz_semantics::{LastRun, Propagator, Tell};
use propagation::is_due;
use std::alloc::{AllocError, Global};
use std::marker::Model;
use std::mem;
use term_store::Store;
use watching::{Foresight, Watch};

/// What a space sees and its propagators, with which of them may be due (CTM 12.3.1; Schulte 2). Contracts see the store and the
/// propagators.
///
/// The first so many propagators are watched. Those behind them came with what is told next: until then a variable of theirs may have
/// no domain.
#[derive(Drop)]
pub struct Constraints {
    store: Store,
    propagators: Sequence<Propagator>,
    watch: Watch,
    watched: usize,
    /// Room for the variables that a tell notes. What it contains is of no use.
    room: Vec<Ident>,
}

impl Model for Constraints {
    ghost use Rattle.std.specs.Coded.{codes};
    ghost use Rattle.environments.specs.contracts.environment.Environment as environment;
    ghost use Rattle.space_core.specs.Constraints.{Held, IsWatched};

    ghost Value = { Held };

    ghost coded = { Prim.hlevel (codes, environment.the_row.coded) };

    ghost view = { λ c. record { store = c.store; propagators = c.propagators } };

    ghost invariant = { λ c. IsWatched c.store c.propagators c.watch c.watched };
}

/// All propagators from an index on are watched too.
fn watch_from(
    alloc: Global,
    store: &Store,
    propagators: &[Propagator],
    watch: &mut Watch,
    from: usize,
)
    requires { from ≤ length propagators.now }
    ensures { Knows store.now (take from propagators.now) watch.old → Knows store.now propagators.now watch.new }
{
    'rest: for index in from..propagators.len() {
        let variables = propagators[index].variables.as_slice();
        watch.posted(alloc, store, index, variables);
        watch.ran(index);
    }
}

/// Goes on after a tell that was foreseen, of which the store noted these variables. All propagators are watched then.
fn follow(
    alloc: Global,
    store: &Store,
    propagators: &[Propagator],
    watch: &mut Watch,
    watched: usize,
    tells: &[Tell],
    noted: &[Ident],
    foresight: Foresight,
)
    requires { watched ≤ length propagators.now }
    ensures { (old : View) → Foretells old tells.now (take watched propagators.now) foresight watch.old → store.now ≡ old ++ tells.now
        → Touches old tells.now noted.now → Knows store.now propagators.now watch.new }
{
    watch.follow(alloc, store, tells, noted, foresight);
    watch_from(alloc, store, propagators, watch, watched);
    watch.settle(store, propagators);
}

/// The propagator saw these domains in its last run.
fn note_last(propagator: &mut Propagator, seen: Shared<Sequence<Sequence<Interval>>>)
    ensures { propagator.new ≡ noting_last seen propagator.old }
{
    propagator.last = LastRun::Saw(seen);
}

fn note_at(
    propagators: &mut Sequence<Propagator>,
    index: usize,
    seen: Shared<Sequence<Sequence<Interval>>>,
)
    ensures { propagators.new ≡ at_place index (noting_last seen) propagators.old }
{
    if index < propagators.len() {
        note_last(propagators.get_mut(index), seen);
    }
}

/// The first propagator that is due, where none is before an index.
fn first_from(store: &Store, propagators: &[Propagator], from: usize) -> Option<usize>
    requires { from ≤ length propagators.now }
    ensures { position (is_due store.now) (take from propagators.now) ≡ None → result ≡ position (is_due store.now) propagators.now }
{
    'rest: for index in from..propagators.len() {
        if is_due(store, &propagators[index]) {
            return Some(index);
        }
    }
    None
}

/// A vector without items, which has the room of this one.
fn taken(alloc: Global, room: &mut Vec<Ident>) -> Vec<Ident>
    ensures { result.items ≡ [] }
{
    let mut taken = mem::replace(room, Vec::new(alloc));
    taken.clear();
    taken
}

fn lesser(left: usize, right: usize) -> usize
    ensures left { result ≤ left }
    ensures right { result ≤ right }
{
    if left < right { left } else { right }
}

impl Constraints {
    /// A store, and propagators of which none is watched yet. It takes no memory.
    pub fn of(alloc: Global, store: Store, propagators: Sequence<Propagator>) -> Constraints
        ensures { result ≡ record { store = store; propagators = propagators } }
    {
        Constraints {
            store,
            propagators,
            watch: Watch::new(alloc),
            watched: 0,
            room: Vec::new(alloc),
        }
    }

    /// A store, and no propagators. It takes no memory.
    pub fn seeing(alloc: Global, store: Store) -> Constraints
        ensures { result ≡ record { store = store; propagators = [] } }
    {
        Constraints::of(alloc, store, Sequence::new(alloc))
    }

    /// A store that was told nothing, and no propagators. It takes no memory.
    pub fn new(alloc: Global) -> Constraints
        ensures { result ≡ record { store = []; propagators = [] } }
    {
        Constraints::seeing(alloc, Store::new(alloc))
    }

    pub fn store(&self) -> &Store
        ensures { result.now ≡ self.now.store }
    {
        &self.store
    }

    /// The propagators, in the order in which they came.
    pub fn propagators(&self) -> &Sequence<Propagator>
        ensures { result.now ≡ self.now.propagators }
    {
        &self.propagators
    }

    /// Tells the store more. The variables that are touched by that, or None exactly where it is inconsistent with what was told before:
    /// then nothing changes.
    #[inline(always)]
    pub fn tell(&mut self, alloc: Global, tells: &[Tell]) -> Result<Option<Vec<Ident>>, AllocError>
        ensures told { IfOk result (λ told. MatchOption told (IsStoreClash tells.now self.old self.new) (λ noted. IsStoreTold tells.now noted.items self.old self.new)) }
        ensures err { OnErr result (self.new ≡ self.old) }
    {
        let foresight = self.watch.foresee(alloc, &self.store, tells);
        let mut noted = taken(alloc, &mut self.room);
        if !self.store.tell(alloc, tells, &mut noted)? {
            return Ok(None);
        }
        follow(
            alloc,
            &self.store,
            self.propagators.as_slice(),
            &mut self.watch,
            self.watched,
            tells,
            noted.as_slice(),
            foresight,
        );
        self.watched = self.propagators.len();
        Ok(Some(noted))
    }

    /// A tell noted these variables, which are of no use any more: the next tell gets their room.
    pub fn reuse(&mut self, noted: Vec<Ident>)
        ensures { self.new ≡ self.old }
    {
        self.room = noted;
    }

    /// Another store takes the place of this one. Which propagators may be due is found anew: it takes the time of all of them.
    pub fn see(&mut self, alloc: Global, store: Store)
        ensures { self.new ≡ record self.old { store = store } }
    {
        self.store = store;
        self.watch = Watch::new(alloc);
        watch_from(
            alloc,
            &self.store,
            self.propagators.as_slice(),
            &mut self.watch,
            0,
        );
        self.watched = self.propagators.len();
        self.watch.settle(&self.store, self.propagators.as_slice());
    }

    /// One propagator more. It is watched once something is told.
    pub fn add(&mut self, propagator: Propagator) -> Result<(), AllocError>
        ensures ok { OnOk result (self.new ≡ record self.old { propagators = self.old.propagators ++ propagator ∷ [] }) }
        ensures err { OnErr result (self.new ≡ self.old) }
    {
        self.propagators.push(propagator)?;
        Ok(())
    }

    /// More propagators. All are watched anew once something is told.
    pub fn append(&mut self, alloc: Global, more: Vec<Propagator>) -> Result<(), AllocError>
        ensures { OnOk result (self.new ≡ record self.old { propagators = self.old.propagators ++ more.items }) }
    {
        self.watch = Watch::new(alloc);
        self.watched = 0;
        self.propagators.append(more)?;
        Ok(())
    }

    /// The first so many propagators are left.
    pub fn keep_first(&mut self, alloc: Global, count: usize)
        ensures { self.new ≡ record self.old { propagators = take count self.old.propagators } }
    {
        let mut kept = mem::replace(&mut self.propagators, Sequence::new(alloc)).into_vec();
        kept.truncate(count);
        self.propagators = Sequence::from_vec(kept);
        let watched = lesser(self.watched, count);
        self.watch.kept_first(watched);
        self.watched = watched;
    }

    /// No propagator is left. It takes no memory.
    pub fn drop_propagators(&mut self, alloc: Global)
        ensures { self.new ≡ record self.old { propagators = [] } }
    {
        self.propagators = Sequence::new(alloc);
        self.watch = Watch::new(alloc);
        self.watched = 0;
    }

    /// The propagator at an index saw these domains in its last run. It takes no memory.
    pub fn note_run(&mut self, index: usize, seen: Shared<Sequence<Sequence<Interval>>>)
        ensures { self.new ≡ record self.old { propagators = at_place index (noting_last seen) self.old.propagators } }
    {
        note_at(&mut self.propagators, index, seen);
        self.watch.ran(index);
        let watched = &self.propagators.as_slice()[..self.watched];
        self.watch.settle(&self.store, watched);
    }

    /// The place of the first propagator that is due. It looks at those that may be due, up to that.
    pub fn first_due(&self) -> Option<usize>
        ensures { result ≡ position (is_due self.now.store) self.now.propagators }
    {
        let propagators = self.propagators.as_slice();
        let watched = &propagators[..self.watched];
        match self.watch.first_due(&self.store, watched) {
            Some(index) => Some(index),
            None => first_from(&self.store, propagators, self.watched),
        }
    }
}

impl Copies for Constraints {
    /// It shares what was told. It takes the time and memory of the propagators.
    fn copied(&self, alloc: Global) -> Result<Self, AllocError> {
        Ok(Constraints {
            store: self.store.copied(alloc)?,
            propagators: self.propagators.copied(alloc)?,
            watch: self.watch.copied(alloc)?,
            watched: self.watched,
            room: Vec::new(alloc),
        })
    }
}
