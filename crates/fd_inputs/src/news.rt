//! What is news to a store of an interval that variables are told.
ghost use Rattle.std.specs.Prelude.{◌≡◌, ◌++◌, [], ◌∷◌, Some, None, is_some, if◌then◌else◌, IfOk, OnOk};
ghost use Rattle.ident_map.specs.Entries.{entry};
ghost use Rattle.oz_base.specs.Names.{ident_eq};
ghost use Rattle.oz_base.specs.declared.names.Ident.{Ident};
ghost use Rattle.oz_semantics.specs.Builtins.{interval_news};
ghost use Rattle.oz_semantics.specs.Constraints.{confined};
ghost use Rattle.oz_semantics.specs.Store.{is_news};
ghost use Rattle.oz_semantics.specs.declared.value.Tell.TheVariants.{Within};
ghost use Rattle.term_store.specs.Classes.{IsPartition};
ghost use Rattle.fd_inputs.specs.News.{is_chosen, told_ones, Marks};

use ident_map::IdentMap;
use oz_base::{Copies, Ident, Interval, Sequence};
use oz_semantics::Tell;
use std::alloc::{AllocError, Global};
use term_store::{Classes, Store};

/// A variable is an integer of the interval.
fn confinement(alloc: Global, x: &Ident, interval: Interval) -> Result<Tell, AllocError>
    ensures { IfOk result (λ tell. tell ≡ Within x.now (interval ∷ [])) }
{
    let mut intervals = Sequence::new(alloc);
    intervals.push(interval)?;
    Ok(Tell::Within {
        variable: x.copied(alloc)?,
        intervals,
    })
}

/// Each of these variables is an integer of the interval.
fn confinements(alloc: Global, xs: &[Ident], interval: Interval) -> Result<Vec<Tell>, AllocError>
    ensures { IfOk result (λ tells. tells.items ≡ confined xs.now interval) }
{
    let mut tells = Vec::new(alloc);
    for x in xs {
        tells.push(confinement(alloc, x, interval)?)?;
    }
    Ok(tells)
}

/// Whether it is news to a store that a variable is an integer of the interval.
fn is_news(alloc: Global, store: &Store, x: &Ident, interval: Interval) -> Result<bool, AllocError>
    ensures { IfOk result (λ news. news ≡ is_news store.now (Within x.now (interval ∷ []))) }
{
    let tell = confinement(alloc, x, interval)?;
    Ok(store.is_news(&tell))
}

/// Variables that are told the interval, and the classes that they are in, by the variables that stand for these.
#[derive(Drop)]
struct Chosen {
    variables: Vec<Ident>,
    marks: IdentMap<u8>,
}

impl Chosen {
    fn none(alloc: Global) -> Chosen
        ensures variables { result.variables.items ≡ [] }
        ensures marks { (y : Ident) → entry result.marks y ≡ None }
    {
        Chosen {
            variables: Vec::new(alloc),
            marks: IdentMap::new(alloc),
        }
    }

    fn is_marked(&self, root: &Ident) -> bool
        ensures { result ≡ is_some (entry self.now.marks root.now) }
    {
        self.marks.get(root).is_some()
    }

    fn add(&mut self, alloc: Global, x: &Ident, root: &Ident) -> Result<(), AllocError>
        ensures variables { OnOk result (self.new.variables.items ≡ self.old.variables.items ++ x.now ∷ []) }
        ensures marks { OnOk result ((y : Ident) → entry self.new.marks y ≡ (if ident_eq y root.now then Some 1 else entry self.old.marks y)) }
    {
        self.variables.push(x.copied(alloc)?)?;
        self.marks.insert(alloc, root, 1)?;
        Ok(())
    }
}

/// Whether the interval is news of a variable, after those that were chosen.
fn is_chosen(
    alloc: Global,
    store: &Store,
    classes: &Classes,
    chosen: &Chosen,
    x: &Ident,
    interval: Interval,
) -> Result<bool, AllocError>
    requires classes { IsPartition store.now classes.now }
    requires marks { Marks classes.now chosen.now.variables.items chosen.now.marks }
    ensures { IfOk result (λ b. b ≡ is_chosen store.now interval chosen.now.variables.items x.now) }
{
    if !is_news(alloc, store, x, interval)? {
        return Ok(false);
    }
    if store.told_value(x).is_some() {
        return Ok(true);
    }
    Ok(!chosen.is_marked(classes.root(x)))
}

/// The variables of which the interval is news to a store, each after those before it: one that has no value stands for its class.
fn chosen_ones(
    alloc: Global,
    store: &Store,
    xs: &[Ident],
    interval: Interval,
) -> Result<Vec<Ident>, AllocError>
    ensures { IfOk result (λ ones. ones.items ≡ told_ones store.now interval [] xs.now) }
{
    let classes = store.classes();
    let mut chosen = Chosen::none(alloc);
    for x in xs {
        if is_chosen(alloc, store, classes, &chosen, x, interval)? {
            chosen.add(alloc, x, classes.root(x))?;
        }
    }
    Ok(chosen.variables)
}

/// Each of these variables is an integer of the interval: what of this is news to the store, each after those before it. It refuses
/// where there is no memory.
pub fn interval_news(
    alloc: Global,
    store: &Store,
    xs: &[Ident],
    interval: Interval,
) -> Result<Vec<Tell>, AllocError>
    ensures { IfOk result (λ tells. tells.items ≡ interval_news store.now xs.now interval) }
{
    let ones = chosen_ones(alloc, store, xs, interval)?;
    confinements(alloc, ones.as_slice(), interval)
}
