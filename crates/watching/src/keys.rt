//! Keys: variables that stand for classes, each with a list of propagators.
ghost use Rattle.std.specs.Prelude.{◌≡◌, ◌++◌, ◌∷◌, [], List, ℕ, true, false, None, Some, slice_get, is_some, Contains, IfOk, OnOk};
ghost use Rattle.ident_map.specs.Entries.{entry};
ghost use Rattle.oz_base.specs.declared.interval.Interval.{Interval};
ghost use Rattle.oz_base.specs.declared.names.Ident.{Ident};
ghost use Rattle.oz_semantics.specs.Store.{Same, same, domain_of};
ghost use Rattle.oz_semantics.specs.declared.configuration.Propagator.{Propagator};
ghost use Rattle.oz_semantics.specs.declared.value.Tell.{Tell};
ghost use Rattle.oz_semantics.specs.declared.value.Tell.TheVariants.{Within};
ghost use Rattle.term_store.specs.Classes.{IsPartition};
ghost use Rattle.watching.specs.Lists.{Adds, Enters, Gathered, Gathers, AreKeyed, AreWatched, AreRooted, IsAlone};
ghost use Rattle.watching.specs.Watching.{HasList, AreListed, AreKeys, AreApart};

use crate::tells::has_domain;
use ident_map::IdentMap;
use oz_base::{Copies, Ident};
use oz_semantics::Tell;
use shared_list::SharedList;
use std::alloc::{AllocError, Global};
use term_store::{Classes, Store};

/// Variables that stand for classes which have a domain, each with the indices of the propagators that have a variable of its class.
#[derive(Drop)]
pub struct Keys {
    /// All that have a list.
    pub variables: SharedList<Ident>,
    pub lists: IdentMap<SharedList<usize>>,
}

/// Keys that are not equal to a variable, and what stands in the lists of those that are.
#[derive(Drop)]
pub struct Gathering {
    pub others: Keys,
    pub list: SharedList<usize>,
}

/// Adds all items of another list.
fn append(
    alloc: Global,
    list: &mut SharedList<usize>,
    more: &SharedList<usize>,
) -> Result<(), AllocError>
    ensures { OnOk result (list.new ≡ list.old ++ more.now) }
{
    'items: for place in 0..more.len() {
        let Some(index) = more.get(place) else {
            return Err(AllocError);
        };
        list.push(alloc, *index)?;
    }
    Ok(())
}

impl Keys {
    /// No keys. It takes no memory.
    pub fn new(alloc: Global) -> Keys
        ensures lists { (k : Ident) → entry result.lists k ≡ None }
        ensures variables { result.variables ≡ [] }
    {
        Keys {
            variables: SharedList::new(),
            lists: IdentMap::new(alloc),
        }
    }

    pub fn is_empty(&self) -> bool
        ensures { result ≡ true → self.now.variables ≡ [] }
    {
        self.variables.len() == 0
    }

    fn add(&mut self, alloc: Global, key: &Ident, list: SharedList<usize>) -> Result<(), AllocError>
        ensures { OnOk result (Adds self.old self.new key.now list) }
    {
        self.variables.push(alloc, key.copied(alloc)?)?;
        self.lists.insert(alloc, key, list)
    }

    /// Adds an index to the list of a key. It refuses a variable that is none.
    fn enter(&mut self, alloc: Global, key: &Ident, index: usize) -> Result<(), AllocError>
        ensures { OnOk result (Enters self.old self.new key.now index) }
    {
        let Some(list) = self.lists.get(key) else {
            return Err(AllocError);
        };
        let mut list = list.copied(alloc)?;
        list.push(alloc, index)?;
        self.lists.insert(alloc, key, list)
    }

    /// Whether a key is equal to a variable. It looks at each key.
    pub fn any_equal(&self, store: &Store, root: &Ident) -> bool
        ensures { result ≡ false → AreListed self.now → IsAlone store.now root.now self.now }
    {
        'keys: for place in 0..self.variables.len() {
            if self.is_equal_at(store, root, place) {
                return true;
            }
        }
        false
    }

    fn is_equal_at(&self, store: &Store, root: &Ident, place: u64) -> bool
        ensures { (k : Ident) → slice_get self.now.variables place ≡ Some k → result ≡ same store.now k root.now }
    {
        match self.variables.get(place) {
            None => false,
            Some(key) => store.same(key, root),
        }
    }

    /// Puts a key among those that are not equal to the variable, or else what its list has into the one list.
    fn gather_one(
        &self,
        alloc: Global,
        store: &Store,
        root: &Ident,
        key: &Ident,
        draft: &mut Gathering,
    ) -> Result<(), AllocError>
        ensures { OnOk result ((seen : List Ident) → Gathered store.now root.now self.now seen draft.old
            → Gathered store.now root.now self.now (seen ++ key.now ∷ []) draft.new) }
    {
        let Some(list) = self.lists.get(key) else {
            return Ok(());
        };
        if store.same(key, root) {
            return append(alloc, &mut draft.list, list);
        }
        let list = list.copied(alloc)?;
        draft.others.add(alloc, key, list)
    }

    /// The keys that are not equal to a variable, and what stands in the lists of those that are.
    fn gathered(&self, alloc: Global, store: &Store, root: &Ident) -> Result<Gathering, AllocError>
        ensures { IfOk result (Gathered store.now root.now self.now self.now.variables) }
    {
        let mut draft = Gathering {
            others: Keys::new(alloc),
            list: SharedList::new(),
        };
        'keys: for place in 0..self.variables.len() {
            let Some(key) = self.variables.get(place) else {
                return Err(AllocError);
            };
            self.gather_one(alloc, store, root, key, &mut draft)?;
        }
        Ok(draft)
    }

    /// The variable takes the place of all keys that are equal to it, with all that stands in their lists. It looks at each key.
    pub fn gather(&mut self, alloc: Global, store: &Store, root: &Ident) -> Result<(), AllocError>
        ensures { OnOk result (AreListed self.old → Gathers store.now root.now self.old self.new) }
    {
        let draft = self.gathered(alloc, store, root)?;
        let Gathering { mut others, list } = draft;
        others.add(alloc, root, list)?;
        *self = others;
        Ok(())
    }

    /// The variable, which stands for a class that has a domain, is a key. Where it was none, it looks at each key.
    pub fn make(&mut self, alloc: Global, store: &Store, root: &Ident) -> Result<(), AllocError>
        ensures { OnOk result ((ps : List Propagator) → AreKeys store.now ps self.old → AreApart store.now self.old → is_some (domain_of store.now root.now) ≡ true
            → AreKeyed store.now ps root.now self.old self.new) }
    {
        if let Some(_list) = self.lists.get(root) {
            return Ok(());
        }
        if !self.any_equal(store, root) {
            return self.add(alloc, root, SharedList::new());
        }
        self.gather(alloc, store, root)
    }

    /// The propagator at the index has this variable. It refuses one that has no domain.
    fn watch(
        &mut self,
        alloc: Global,
        store: &Store,
        variable: &Ident,
        index: usize,
    ) -> Result<(), AllocError>
        ensures { OnOk result ((ps : List Propagator) → AreKeys store.now ps self.old → AreApart store.now self.old
            → AreWatched store.now ps (variable.now ∷ []) index self.old self.new) }
    {
        if !has_domain(store, variable) {
            return Err(AllocError);
        }
        let root = store.classes().root(variable);
        self.make(alloc, store, root)?;
        self.enter(alloc, root, index)
    }

    /// The propagator at the index has these variables. It refuses where one has no domain.
    pub fn watch_all(
        &mut self,
        alloc: Global,
        store: &Store,
        variables: &[Ident],
        index: usize,
    ) -> Result<(), AllocError>
        ensures { OnOk result ((ps : List Propagator) → AreKeys store.now ps self.old → AreApart store.now self.old
            → AreWatched store.now ps variables.now index self.old self.new) }
    {
        for variable in variables {
            self.watch(alloc, store, variable, index)?;
        }
        Ok(())
    }

    /// Makes the root of a variable's class a key, where it has a domain, and is not determined.
    fn adopt(
        &mut self,
        alloc: Global,
        store: &Store,
        classes: &Classes,
        variable: &Ident,
    ) -> Result<(), AllocError>
        ensures { OnOk result ((ps : List Propagator) (tells : List Tell) (is : List Interval) → IsPartition store.now classes.now
            → Contains tells (Within variable.now is) → AreRooted store.now ps classes.now tells self.old → AreRooted store.now ps classes.now tells self.new) }
    {
        if !has_domain(store, variable) {
            return Ok(());
        }
        if store.is_determined(variable) {
            return Ok(());
        }
        let root = classes.root(variable);
        if let Some(_list) = self.lists.get(root) {
            return Ok(());
        }
        self.add(alloc, root, SharedList::new())
    }

    fn adopt_told(
        &mut self,
        alloc: Global,
        store: &Store,
        classes: &Classes,
        tell: &Tell,
    ) -> Result<(), AllocError>
        ensures { OnOk result ((ps : List Propagator) (tells : List Tell) → IsPartition store.now classes.now
            → Contains tells tell.now → AreRooted store.now ps classes.now tells self.old → AreRooted store.now ps classes.now tells self.new) }
    {
        match tell {
            Tell::Within { variable, .. } => self.adopt(alloc, store, classes, variable),
            Tell::Equal { .. } => Ok(()),
            Tell::Is { .. } => Ok(()),
        }
    }

    /// Makes the roots of the classes of variables that were told a domain keys, where no key is equal to one of them.
    pub fn adopt_all(
        &mut self,
        alloc: Global,
        store: &Store,
        tells: &[Tell],
    ) -> Result<(), AllocError>
        ensures { OnOk result ((ps : List Propagator) → AreKeys store.now ps self.old → AreApart store.now self.old
            → ((x : Ident) (is : List Interval) → Contains tells.now (Within x is) → (k : Ident) (l : List ℕ) → HasList self.old k l → Same store.now x k → ⊥)
            → AreKeys store.now ps self.new × AreApart store.now self.new) }
    {
        let classes = store.classes();
        for tell in tells {
            self.adopt_told(alloc, store, classes, tell)?;
        }
        Ok(())
    }
}

impl Copies for Keys {
    /// It shares the lists, and takes the time and memory of a few words for each space below the top that has keys.
    fn copied(&self, alloc: Global) -> Result<Self, AllocError> {
        Ok(Keys {
            variables: self.variables.copied(alloc)?,
            lists: self.lists.copied(alloc)?,
        })
    }
}
