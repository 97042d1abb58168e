//! Tables of the places of names: of each name the first.

ghost use Rattle.std.specs.Prelude.{◌≡◌, ℕ, List, Some, None, if◌then◌else◌, map, bytes_eq, IfOk, OnOk};
ghost use Rattle.std.specs.Option.{option_or};
ghost use Rattle.indexmap.specs.IndexMap.{get};
ghost use Rattle.text_names.specs.Places.{place_by};

use aen_base::{Name, NoMem};
use indexmap::IndexMap;
use raw_meaning::VariantHead;
use std::alloc::Global;

/// What has a name.
pub(crate) trait Named {
    /// The name.
    ghost name_of: { Self → List ℕ };

    /// The name.
    fn name(&self) -> &Name
        ensures { result.now ≡ name_of self.now };
}

impl Named for Name {
    ghost name_of = { λ n. n };

    fn name(&self) -> &Name {
        self
    }
}

impl Named for VariantHead {
    ghost name_of = { λ v. v.name };

    fn name(&self) -> &Name {
        &self.name
    }
}

/// Gives a name its place, where it has none yet.
pub(crate) fn enter(
    alloc: Global,
    table: &mut IndexMap<Name, u32>,
    name: &Name,
    place: u32,
) -> Result<(), NoMem>
    ensures { OnOk result ((w : List ℕ) → get bytes_eq table.new w ≡ option_or (get bytes_eq table.old w) (if bytes_eq name.now w then Some place else None)) }
{
    if table.get(name).is_none() {
        let key = name.try_clone(alloc)?;
        table.insert(key, place)?;
    }
    Ok(())
}

/// The place of the first of each name. The only error is want of memory.
pub(crate) fn places_of<T: Named>(alloc: Global, items: &[T]) -> Result<IndexMap<Name, u32>, NoMem>
    ensures { IfOk result (λ m. (w : List ℕ) → get bytes_eq m w ≡ place_by bytes_eq (map T.name_of items.now) w) }
{
    let mut table = IndexMap::new(alloc);
    for place in 0..items.len() {
        let Ok(number) = u32::try_from(place) else {
            return Err(NoMem);
        };
        enter(alloc, &mut table, items[place].name(), number)?;
    }
    Ok(table)
}
