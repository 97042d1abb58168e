//! Lists of things that are found by their names.

ghost use Rattle.std.specs.Prelude.{◌≡◌, [], ◌∷◌, ◌++◌, map, IfOk};
ghost use Rattle.std.specs.Option.{option_map};
ghost use Rattle.raw_meaning.specs.Lookups as lookups;
ghost use Rattle.raw_meaning.specs.Outlines as outlines;

use crate::named::{Named, enter, places_of};
use aen_base::{List, Name, NoMem, at};
use indexmap::IndexMap;
use std::alloc::Global;
use std::marker::Model;

/// A list whose items are found by their names: contracts see the list.
#[derive(Drop)]
pub(crate) struct ByName<T: Named> {
    items: List<T>,
    /// The place of the first item of each name.
    table: IndexMap<Name, u32>,
}

impl<T: Named> Model for ByName<T> {
    ghost use Rattle.std.specs.Prelude.{◌≡◌, List, ℕ, map, bytes_eq};
    ghost use Rattle.std.specs.Coded.{coded_list};
    ghost use Rattle.indexmap.specs.IndexMap.{get};
    ghost use Rattle.text_names.specs.Places.{place_by};

    ghost Value = { List T };

    ghost coded = { coded_list T.code };

    ghost view = { λ s. s.items };

    ghost invariant = { λ s. (w : List ℕ) → get bytes_eq s.table w ≡ place_by bytes_eq (map T.name_of s.items) w };
}

impl<T: Named> ByName<T> {
    /// No items.
    pub(crate) fn empty(alloc: Global) -> ByName<T>
        ensures { result ≡ [] }
    {
        ByName {
            items: List::new(alloc),
            table: IndexMap::new(alloc),
        }
    }

    /// The list with its table. The only error is want of memory.
    pub(crate) fn new(alloc: Global, items: List<T>) -> Result<ByName<T>, NoMem>
    where
        T: Drop,
        ensures { IfOk result (λ s. s ≡ items) }
    {
        let table = places_of(alloc, items.as_slice())?;
        Ok(ByName { items, table })
    }

    /// The items in order.
    pub(crate) fn as_slice(&self) -> &[T]
        ensures { result.now ≡ self.now }
    {
        self.items.as_slice()
    }

    /// The place of the first item of this name.
    pub(crate) fn place_of(&self, name: &Name) -> Option<u32>
        ensures { result ≡ outlines.place_of (map T.name_of self.now) name.now }
    {
        self.table.get(name).copied()
    }

    /// The first item of this name, with its place.
    pub(crate) fn find(&self, name: &Name) -> Option<(u32, &T)>
        ensures { option_map (λ p. (p.0, p.1.now)) result ≡ lookups.find T.name_of self.now name.now }
    {
        let place = self.place_of(name)?;
        let item = at(self.items.as_slice(), place as usize)?;
        Some((place, item))
    }

    /// The list without its table.
    pub(crate) fn into_items(self) -> List<T>
        ensures { result ≡ self }
    {
        let ByName {
            items,
            table: _table,
        } = self;
        items
    }
}

impl<T: Named + Drop> ByName<T> {
    /// The list with one more item. The only error is want of memory.
    pub(crate) fn with(self, alloc: Global, item: T) -> Result<ByName<T>, NoMem>
        ensures { IfOk result (λ s. s ≡ self ++ item ∷ []) }
    {
        let ByName {
            mut items,
            mut table,
        } = self;
        let Ok(place) = u32::try_from(items.len()) else {
            return Err(NoMem);
        };
        enter(alloc, &mut table, item.name(), place)?;
        items.push(item)?;
        Ok(ByName { items, table })
    }
}
