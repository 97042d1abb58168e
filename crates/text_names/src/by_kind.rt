//! Lists of things that are found by the kinds of definitions that they are of.

ghost use Rattle.std.specs.Prelude.{◌≡◌, [], ◌∷◌, ◌++◌, Some, None, if◌then◌else◌, map, IfOk, OnOk};
ghost use Rattle.std.specs.Option.{option_or};
ghost use Rattle.indexmap.specs.IndexMap.{get};
ghost use Rattle.raw_meaning.specs.Lookups as lookups;
ghost use Rattle.text_names.specs.Kinds as spec;
ghost use Rattle.text_names.specs.Places.{place_by};

use crate::kind_key::{KindKey, Kinded};
use aen_base::{List, NoMem, at};
use indexmap::IndexMap;
use pure_ast::DefKind;
use raw_meaning::DefinitionHead;
use std::alloc::Global;
use std::marker::Model;

/// Gives a key its place, where it has none yet.
fn enter(table: &mut IndexMap<KindKey, u32>, key: KindKey, place: u32) -> Result<(), NoMem>
    ensures { OnOk result ((k : KindKey) → get ⟦<KindKey as PartialEq>⟧.eq table.new k ≡ option_or (get ⟦<KindKey as PartialEq>⟧.eq table.old k) (if ⟦<KindKey as PartialEq>⟧.eq key k then Some place else None)) }
{
    if table.get(&key).is_none() {
        table.insert(key, place)?;
    }
    Ok(())
}

/// The place of the first of each kind. The only error is want of memory.
fn places_of<T: Kinded>(alloc: Global, items: &[T]) -> Result<IndexMap<KindKey, u32>, NoMem>
    ensures { IfOk result (λ m. (k : KindKey) → get ⟦<KindKey as PartialEq>⟧.eq m k ≡ place_by ⟦<KindKey as PartialEq>⟧.eq (map T.key_of items.now) k) }
{
    let mut table = IndexMap::new(alloc);
    for place in 0..items.len() {
        let Ok(number) = u32::try_from(place) else {
            return Err(NoMem);
        };
        enter(&mut table, items[place].key(), number)?;
    }
    Ok(table)
}

/// A list whose items are found by their kinds: contracts see the list.
#[derive(Drop)]
pub(crate) struct ByKind<T: Kinded> {
    items: List<T>,
    /// The place of the first item of each kind.
    table: IndexMap<KindKey, u32>,
}

impl<T: Kinded> Model for ByKind<T> {
    ghost use Rattle.std.specs.Prelude.{◌≡◌, List, map};
    ghost use Rattle.std.specs.Coded.{coded_list};
    ghost use Rattle.indexmap.specs.IndexMap.{get};
    ghost use Rattle.text_names.specs.declared.kind_key.KindKey.{KindKey};
    ghost use Rattle.text_names.specs.Places.{place_by};

    ghost Value = { List T };

    ghost coded = { coded_list T.code };

    ghost view = { λ s. s.items };

    ghost invariant = { λ s. (k : KindKey) → get ⟦<KindKey as PartialEq>⟧.eq s.table k ≡ place_by ⟦<KindKey as PartialEq>⟧.eq (map T.key_of s.items) k };
}

impl<T: Kinded> ByKind<T> {
    /// No items.
    pub(crate) fn empty(alloc: Global) -> ByKind<T>
        ensures { result ≡ [] }
    {
        ByKind {
            items: List::new(alloc),
            table: IndexMap::new(alloc),
        }
    }

    /// The list with its table. The only error is want of memory.
    pub(crate) fn new(alloc: Global, items: List<T>) -> Result<ByKind<T>, NoMem>
    where
        T: Drop,
        ensures { IfOk result (λ s. s ≡ items) }
    {
        let table = places_of(alloc, items.as_slice())?;
        Ok(ByKind { items, table })
    }

    /// The items in order.
    pub(crate) fn as_slice(&self) -> &[T]
        ensures { result.now ≡ self.now }
    {
        self.items.as_slice()
    }

    /// The place of the first item of this kind.
    pub(crate) fn place_of(&self, key: KindKey) -> Option<u32>
        ensures { result ≡ place_by ⟦<KindKey as PartialEq>⟧.eq (map T.key_of self.now) key }
    {
        self.table.get(&key).copied()
    }
}

impl<T: Kinded + Drop> ByKind<T> {
    /// The list with one more item. The only error is want of memory.
    pub(crate) fn with(self, item: T) -> Result<ByKind<T>, NoMem>
        ensures { IfOk result (λ s. s ≡ self ++ item ∷ []) }
    {
        let ByKind {
            mut items,
            mut table,
        } = self;
        let Ok(place) = u32::try_from(items.len()) else {
            return Err(NoMem);
        };
        enter(&mut table, item.key(), place)?;
        items.push(item)?;
        Ok(ByKind { items, table })
    }
}

/// The place of the first definition of this kind, with its number of parameters.
#[tactic(auto, using(crate::proofs::Keys::head_by_key))]
pub(crate) fn first_of(heads: &ByKind<DefinitionHead>, kind: &DefKind) -> Option<(u32, usize)>
    ensures { result ≡ lookups.head_of_kind heads.now kind.now }
{
    find(heads, KindKey::of(kind))
}

/// The place of the first definition of the kind with this key, with its number of parameters.
fn find(heads: &ByKind<DefinitionHead>, key: KindKey) -> Option<(u32, usize)>
    ensures { result ≡ spec.head_of_key ⟦<KindKey as PartialEq>⟧.eq heads.now key }
{
    let place = heads.place_of(key)?;
    let head = at(heads.as_slice(), place as usize)?;
    Some((place, head.parameters))
}
