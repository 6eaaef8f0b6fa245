//! The map: a row of entries for each space.
ghost use Rattle.std.specs.Prelude.{◌≡◌, Some, None, if◌then◌else◌, position, IfOk, OnOk, OnErr, option_copied};
ghost use Rattle.std.specs.FinMap as map;
ghost use Rattle.oz_base.specs.Lists.{list_eq};
ghost use Rattle.oz_base.specs.Names.{ident_eq};
ghost use Rattle.oz_base.specs.declared.names.Ident.{Ident};
ghost use Rattle.ident_map.specs.Entries.{entry};

use oz_base::{Copies, Ident, SpaceName, copies_of, same_space};
use shared_map::SharedMap;
use std::alloc::{AllocError, Global};
use std::marker::Model;

/// The entries of one space, by their numbers.
#[derive(Drop)]
pub struct Row<V> {
    pub space: SpaceName,
    pub entries: SharedMap<V>,
}

/// A map from names to values. Contracts see a list of rows, the top's first, and `entry` says what they hold at a name.
///
/// A copy shares every entry and takes the time of the number of spaces below the top that have entries. A later write copies
/// what lies on its way alone, and writes in place what no copy shares. A name of the top is looked up without a search for its
/// row. For another name the rows are searched from the first on, so there should be few such spaces.
#[derive(Drop)]
pub struct IdentMap<V> {
    top: SharedMap<V>,
    /// The first row of a space counts.
    others: Vec<Row<V>>,
}

impl<V> Model for IdentMap<V> {
    ghost use Rattle.std.specs.Prelude.{List, [], ◌∷◌};
    ghost use Rattle.std.specs.FinMap as map;
    ghost use Rattle.std.specs.Coded.{codes};
    ghost use Rattle.ident_map.specs.declared.map.Row.{Row};

    ghost Value = { List (Row V) };

    ghost coded = { Prim.hlevel (codes, map.code) };

    ghost use Rattle.ident_map.specs.Entries.{with_top};

    ghost view = { λ m. with_top m.top m.others.items };
}

/// The place of the first row of a space.
fn row_of<V>(rows: &[Row<V>], space: &SpaceName) -> Option<usize>
    ensures { result ≡ position (λ row. list_eq row.space space.now) rows.now }
{
    rows.iter().position(|row| same_space(&row.space, space))
}

/// The entry of a name in the first row of its space.
fn entry_in<'a, V>(rows: &'a [Row<V>], x: &Ident) -> Option<&'a V>
    ensures { option_copied result ≡ entry rows.now x.now }
{
    match row_of(rows, &x.space) {
        Some(place) => rows[place].entries.get(x.number),
        None => None,
    }
}

impl<V: Drop> Copies for Row<V> {
    fn copied(&self, alloc: Global) -> Result<Self, AllocError> {
        Ok(Row {
            space: self.space.copied(alloc)?,
            entries: self.entries.copied(alloc)?,
        })
    }
}

impl<V: Copies> Row<V> {
    fn insert(&mut self, alloc: Global, number: u64, value: V) -> Result<(), AllocError>
        ensures space { self.new.space ≡ self.old.space }
        ensures ok { OnOk result (self.new.entries ≡ map.insert self.old.entries number value) }
        ensures err { OnErr result (self.new.entries ≡ self.old.entries) }
    {
        let Ok(_was) = self.entries.insert(alloc, number, value) else {
            return Err(AllocError);
        };
        Ok(())
    }
}

/// A row with one entry.
fn started<V: Copies>(alloc: Global, x: &Ident, value: V) -> Result<Row<V>, AllocError>
    ensures space { IfOk result (λ row. row.space ≡ x.now.space) }
    ensures entries { IfOk result (λ row. row.entries ≡ map.insert map.empty x.now.number value) }
{
    let mut entries = SharedMap::new();
    let Ok(_was) = entries.insert(alloc, x.number, value) else {
        return Err(AllocError);
    };
    Ok(Row {
        space: x.space.copied(alloc)?,
        entries,
    })
}

/// Writes in the first row of the name's space, or adds a row.
fn insert_in<V: Copies>(
    rows: &mut Vec<Row<V>>,
    alloc: Global,
    x: &Ident,
    value: V,
) -> Result<(), AllocError>
    ensures ok { OnOk result ((y : Ident) → entry rows.new.items y ≡ (if ident_eq y x.now then Some value else entry rows.old.items y)) }
    ensures err { OnErr result (rows.new.items ≡ rows.old.items) }
{
    match row_of(rows.as_slice(), &x.space) {
        Some(place) => rows[place].insert(alloc, x.number, value),
        None => {
            let row = started(alloc, x, value)?;
            rows.push(row)?;
            Ok(())
        }
    }
}

impl<V> IdentMap<V> {
    /// A map with no entry, which takes no memory.
    pub fn new(alloc: Global) -> Self
        ensures { (x : Ident) → entry result x ≡ None }
    {
        IdentMap {
            top: SharedMap::new(),
            others: Vec::new(alloc),
        }
    }

    /// The value of a name, or none.
    pub fn get(&self, x: &Ident) -> Option<&V>
        ensures { option_copied result ≡ entry self.now x.now }
    {
        if x.space.is_top() {
            return self.top.get(x.number);
        }
        entry_in(self.others.as_slice(), x)
    }
}

impl<V: Drop> Copies for IdentMap<V> {
    /// In the time of the number of rows. It refuses for lack of memory, which it takes for the rows alone.
    fn copied(&self, alloc: Global) -> Result<Self, AllocError> {
        Ok(IdentMap {
            top: self.top.copied(alloc)?,
            others: copies_of(alloc, self.others.as_slice())?,
        })
    }
}

impl<V: Copies> IdentMap<V> {
    /// Sets the value of a name. An error is for lack of memory, or for 2^64 - 1 entries of the space, and leaves the map.
    pub fn insert(&mut self, alloc: Global, x: &Ident, value: V) -> Result<(), AllocError>
        ensures ok { OnOk result ((y : Ident) → entry self.new y ≡ (if ident_eq y x.now then Some value else entry self.old y)) }
        ensures err { OnErr result (self.new ≡ self.old) }
    {
        if x.space.is_top() {
            let Ok(_was) = self.top.insert(alloc, x.number, value) else {
                return Err(AllocError);
            };
            return Ok(());
        }
        insert_in(&mut self.others, alloc, x, value)
    }
}
