//! Lists of things that are found by their names.

ghost use Rattle.std.specs.Prelude.{◌≡◌, ℕ, List, Some, None, if◌then◌else◌, map, bytes_eq, IfOk, OnOk};
ghost use Rattle.std.specs.Option.{option_map};
ghost use Rattle.indexmap.specs.IndexMap.{get};
ghost use Rattle.name_tables.specs.Finding as finding;

use aen_base::{List, Name, NoMem, at};
use indexmap::IndexMap;
use std::alloc::Global;
use std::marker::Model;

/// What has a name.
pub trait Named {
    /// The name.
    ghost name_of: { Self → List ℕ };

    /// The name.
    fn name(&self) -> &Name
        ensures { result.now ≡ name_of self.now };
}

impl Named for Name {
    ghost name_of = { λ n. n };

    fn name(&self) -> &Name {
        self
    }
}

/// A list whose items are found by their names: contracts see the list.
#[derive(Drop)]
pub struct ByName<T: Named> {
    items: List<T>,
    /// The place of the first item of each name.
    table: IndexMap<Name, usize>,
}

impl<T: Named> Model for ByName<T> {
    ghost use Rattle.std.specs.Prelude.{◌≡◌, List, ℕ, map, bytes_eq};
    ghost use Rattle.std.specs.Coded.{coded_list};
    ghost use Rattle.indexmap.specs.IndexMap.{get};
    ghost use Rattle.name_tables.specs.Finding.{place_of};

    ghost Value = { List T };

    ghost coded = { coded_list T.code };

    ghost view = { λ s. s.items };

    ghost invariant = { λ s. (w : List ℕ) → get bytes_eq s.table w ≡ place_of (map T.name_of s.items) w };
}

impl<T: Named> ByName<T> {
    /// The list with its table.
    ///
    /// # Errors
    ///
    /// `NoMem` for want of memory alone.
    pub fn new(alloc: Global, items: List<T>) -> Result<ByName<T>, NoMem>
    where
        T: Drop,
        ensures { IfOk result (λ s. s ≡ items) }
    {
        let table = places_of(alloc, items.as_slice())?;
        Ok(ByName { items, table })
    }

    /// The place of the first item of this name.
    pub fn place_of(&self, name: &Name) -> Option<usize>
        ensures { result ≡ finding.place_of (map T.name_of self.now) name.now }
    {
        self.table.get(name).copied()
    }

    /// The first item of this name, with its place.
    pub fn find(&self, name: &Name) -> Option<(usize, &T)>
        ensures { option_map (λ p. (p.0, p.1.now)) result ≡ finding.find T.name_of self.now name.now }
    {
        let place = self.place_of(name)?;
        let item = at(self.items.as_slice(), place)?;
        Some((place, item))
    }

    /// The items in order.
    pub fn as_slice(&self) -> &[T]
        ensures { result.now ≡ self.now }
    {
        self.items.as_slice()
    }

    /// The list without its table.
    pub fn into_items(self) -> List<T>
        ensures { result ≡ self }
    {
        let ByName {
            items,
            table: _table,
        } = self;
        items
    }
}

/// Gives a name its place, where it has none yet.
fn enter(
    alloc: Global,
    table: &mut IndexMap<Name, usize>,
    name: &Name,
    place: usize,
) -> Result<(), NoMem>
    ensures { OnOk result ((w : List ℕ) → get bytes_eq table.new w ≡ finding.or_else (get bytes_eq table.old w) (if bytes_eq name.now w then Some place else None)) }
{
    if table.get(name).is_none() {
        let key = name.try_clone(alloc)?;
        table.insert(key, place)?;
    }
    Ok(())
}

/// The place of the first of each name. The only error is want of memory.
fn places_of<T: Named>(alloc: Global, items: &[T]) -> Result<IndexMap<Name, usize>, NoMem>
    ensures { IfOk result (λ m. (w : List ℕ) → get bytes_eq m w ≡ finding.place_of (map T.name_of items.now) w) }
{
    let mut table = IndexMap::new(alloc);
    for place in 0..items.len() {
        enter(alloc, &mut table, items[place].name(), place)?;
    }
    Ok(table)
}
