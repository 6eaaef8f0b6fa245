//! Threads that wait.
ghost use Rattle.std.specs.Prelude.{◌≡◌, ◌++◌, ◌∷◌, ◌&&◌, [], List, ℕ, IfOk, OnOk, Contains};
ghost use Rattle.oz_base.specs.declared.names.Ident.{Ident};
ghost use Rattle.oz_semantics.specs.Store.{View, same};
ghost use Rattle.suspension.specs.Changes.{is_key, AreListed, Finds, Admits, Enters, Leaves, Gathered, Tidies, Waking};
ghost use Rattle.suspension.specs.Sleeping.{AreKeys, FallsAsleep, Wakes, numbers_at};
ghost use Rattle.suspension.specs.declared.sleepers.Sleepers.{Sleepers};

use crate::numbers::{add, add_all, ascending};
use ident_map::IdentMap;
use oz_base::{Copies, Ident, Sequence};
use shared_list::SharedList;
use std::alloc::{AllocError, Global};
use term_store::Store;

/// The threads of a space that wait, by keys: variables that stand for classes, each with the numbers of the threads that wait for a
/// variable of its class.
///
/// Nothing is done for a thread while no variable of these classes is touched. A thread may be found by a variable for which it waits no
/// longer: then it wakes once too often.
#[derive(Drop)]
pub struct Sleepers {
    /// All keys. Among them may be variables that are none any more.
    variables: SharedList<Ident>,
    /// A variable without a list, or with an empty one, is no key.
    lists: IdentMap<SharedList<u64>>,
    /// How many keys were taken out since the variables were last gathered.
    taken: u64,
}

impl Sleepers {
    /// No threads. It takes no memory.
    pub fn new(alloc: Global) -> Sleepers
        ensures keys { (view : View) → AreKeys view result }
        ensures none { (k : Ident) → numbers_at result k ≡ [] }
    {
        Sleepers {
            variables: SharedList::new(),
            lists: IdentMap::new(alloc),
            taken: 0,
        }
    }

    fn is_key(&self, variable: &Ident) -> bool
        ensures { result ≡ is_key self.now variable.now }
    {
        match self.lists.get(variable) {
            None => false,
            Some(list) => list.len() != 0,
        }
    }

    fn list_of(&self, alloc: Global, variable: &Ident) -> Result<SharedList<u64>, AllocError>
        ensures { IfOk result (λ list. list ≡ numbers_at self.now variable.now) }
    {
        match self.lists.get(variable) {
            None => Ok(SharedList::new()),
            Some(list) => list.copied(alloc),
        }
    }

    fn is_equal_key(&self, store: &Store, key: &Ident, variable: &Ident) -> bool
        ensures { result ≡ is_key self.now key.now && same store.now variable.now key.now }
    {
        self.is_key(key) && store.same(variable, key)
    }

    /// The key that is equal to a variable, if there is one. It looks at each key.
    fn look(
        &self,
        alloc: Global,
        store: &Store,
        variable: &Ident,
    ) -> Result<Option<Ident>, AllocError>
        ensures { IfOk result (Finds store.now self.now variable.now) }
    {
        'keys: for place in 0..self.variables.len() {
            let Some(key) = self.variables.get(place) else {
                return Err(AllocError);
            };
            if self.is_equal_key(store, key, variable) {
                return Ok(Some(key.copied(alloc)?));
            }
        }
        Ok(None)
    }

    /// The key that is equal to a variable, if there is one. It looks at each key only where none is the root of the variable's class, and
    /// other variables may be of it.
    fn key_of(
        &self,
        alloc: Global,
        store: &Store,
        variable: &Ident,
    ) -> Result<Option<Ident>, AllocError>
        ensures { IfOk result (Finds store.now self.now variable.now) }
    {
        let root = store.classes().root(variable);
        if self.is_key(root) {
            return Ok(Some(root.copied(alloc)?));
        }
        if store.is_alone(variable) {
            return Ok(None);
        }
        self.look(alloc, store, variable)
    }

    /// Adds a variable to those among which each key is, unless it is a key.
    fn admit(&mut self, alloc: Global, variable: &Ident) -> Result<(), AllocError>
        ensures { OnOk result (Admits variable.now self.old self.new) }
    {
        if self.is_key(variable) {
            return Ok(());
        }
        self.variables.push(alloc, variable.copied(alloc)?)
    }

    /// Adds a number to the list of a variable, which is a key from now on.
    fn enter(&mut self, alloc: Global, key: &Ident, number: u64) -> Result<(), AllocError>
        ensures { OnOk result (Enters number key.now self.old self.new) }
    {
        self.admit(alloc, key)?;
        let mut list = self.list_of(alloc, key)?;
        add(alloc, &mut list, number)?;
        self.lists.insert(alloc, key, list)
    }

    fn wait_for(
        &mut self,
        alloc: Global,
        store: &Store,
        number: u64,
        variable: &Ident,
    ) -> Result<(), AllocError>
        ensures { OnOk result (FallsAsleep store.now number (variable.now ∷ []) self.old self.new) }
    {
        match self.key_of(alloc, store, variable)? {
            Some(key) => self.enter(alloc, &key, number),
            None => self.enter(alloc, store.classes().root(variable), number),
        }
    }

    /// The thread with this number waits for these variables. An error is for lack of memory, and leaves what is only to be dropped.
    pub fn fall_asleep(
        &mut self,
        alloc: Global,
        store: &Store,
        number: u64,
        variables: &[Ident],
    ) -> Result<(), AllocError>
        ensures { OnOk result (FallsAsleep store.now number variables.now self.old self.new) }
    {
        for variable in variables {
            self.wait_for(alloc, store, number, variable)?;
        }
        Ok(())
    }

    /// A variable is no key any more, and its numbers are handed out.
    fn take_out(
        &mut self,
        alloc: Global,
        key: &Ident,
        woken: &mut Vec<u64>,
    ) -> Result<(), AllocError>
        ensures leaves { OnOk result (Leaves key.now self.old self.new) }
        ensures woken { OnOk result (woken.new.items ≡ woken.old.items ++ numbers_at self.old key.now) }
    {
        let list = self.list_of(alloc, key)?;
        add_all(woken, &list)?;
        self.taken = self.taken.saturating_add(1);
        self.lists.insert(alloc, key, SharedList::new())
    }

    fn wake_one(
        &mut self,
        alloc: Global,
        store: &Store,
        variable: &Ident,
        woken: &mut Vec<u64>,
    ) -> Result<(), AllocError>
        ensures { OnOk result ((old : Sleepers) (done : List Ident) → AreKeys store.now old → Waking store.now done old self.old woken.old.items
            → Waking store.now (done ++ variable.now ∷ []) old self.new woken.new.items) }
    {
        match self.key_of(alloc, store, variable)? {
            None => Ok(()),
            Some(key) => self.take_out(alloc, &key, woken),
        }
    }

    fn wake_all(
        &mut self,
        alloc: Global,
        store: &Store,
        touched: &[Ident],
    ) -> Result<Vec<u64>, AllocError>
        ensures { IfOk result (λ woken. AreKeys store.now self.old → Waking store.now touched.now self.old self.new woken.items) }
    {
        let mut woken = Vec::new(alloc);
        for variable in touched {
            self.wake_one(alloc, store, variable, &mut woken)?;
        }
        Ok(woken)
    }

    /// Puts a variable with its list among others, if it is a key, and does not stand there yet.
    fn gather_one(
        &self,
        alloc: Global,
        key: &Ident,
        others: &mut Sleepers,
    ) -> Result<(), AllocError>
        ensures { OnOk result ((seen : List Ident) → Gathered self.now seen others.old → Gathered self.now (seen ++ key.now ∷ []) others.new) }
    {
        if !self.is_key(key) {
            return Ok(());
        }
        if others.is_key(key) {
            return Ok(());
        }
        let list = self.list_of(alloc, key)?;
        others.variables.push(alloc, key.copied(alloc)?)?;
        others.lists.insert(alloc, key, list)
    }

    /// The same keys alone.
    fn gathered(&self, alloc: Global) -> Result<Sleepers, AllocError>
        ensures { IfOk result (Gathered self.now self.now.variables) }
    {
        let mut others = Sleepers::new(alloc);
        'keys: for place in 0..self.variables.len() {
            let Some(key) = self.variables.get(place) else {
                return Err(AllocError);
            };
            self.gather_one(alloc, key, &mut others)?;
        }
        Ok(others)
    }

    /// Forgets the variables that are no keys any more, where they are more than the keys.
    fn tidy(&mut self, alloc: Global) -> Result<(), AllocError>
        ensures { OnOk result (AreListed self.old → Tidies self.old self.new) }
    {
        if self.taken <= self.variables.len() / 2 {
            return Ok(());
        }
        *self = self.gathered(alloc)?;
        Ok(())
    }

    /// Takes out the numbers of the threads that wait for a variable of a class that will be touched, before the store is told. An error is
    /// for lack of memory, and leaves what is only to be dropped.
    pub fn wake(
        &mut self,
        alloc: Global,
        store: &Store,
        touched: &[Ident],
    ) -> Result<Sequence<u64>, AllocError>
        ensures { IfOk result (λ woken. AreKeys store.now self.old → Wakes store.now touched.now self.old self.new woken) }
    {
        let woken = self.wake_all(alloc, store, touched)?;
        self.tidy(alloc)?;
        Ok(ascending(woken))
    }
}

impl Copies for Sleepers {
    /// It shares the lists, and takes the time and memory of a few words for each space below the top that has keys.
    fn copied(&self, alloc: Global) -> Result<Self, AllocError> {
        Ok(Sleepers {
            variables: self.variables.copied(alloc)?,
            lists: self.lists.copied(alloc)?,
            taken: self.taken,
        })
    }
}
