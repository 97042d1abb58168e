//! Names in order.

ghost use Rattle.std.specs.Prelude.{◌≡◌, [], ◌∷◌, ◌++◌, IfOk};
ghost use Rattle.raw_meaning.specs.Outlines as outlines;
ghost use Rattle.raw_meaning.specs.Faults.{texts};

use crate::by_name::ByName;
use aen_base::{List, Name, NoMem};
use raw_ast::Spelling;
use std::alloc::Global;
use std::marker::Model;

/// Names in order, found by a table in expected constant time: contracts see the list of them. A
/// name may stand in it twice; its place is then the first.
#[derive(Drop)]
pub struct Names {
    names: ByName<Name>,
}

impl Model for Names {
    ghost use Rattle.std.specs.Prelude.{List, ℕ};
    ghost use Rattle.std.specs.Coded.{coded_list, coded_ℕ};

    ghost Value = { List (List ℕ) };

    ghost coded = { coded_list (coded_list coded_ℕ) };

    ghost view = { λ s. s.names };
}

impl Names {
    /// No names.
    pub fn new(alloc: Global) -> Names
        ensures { result ≡ [] }
    {
        Names {
            names: ByName::empty(alloc),
        }
    }

    /// The names that are spelled. The only error is want of memory.
    pub fn of(alloc: Global, names: &[Spelling]) -> Result<Names, NoMem>
        ensures { IfOk result (λ ns. ns ≡ texts names.now) }
    {
        Ok(Names::new(alloc).with_all(alloc, names)?)
    }

    /// With one more name. The only error is want of memory.
    pub fn with(self, alloc: Global, name: &Name) -> Result<Names, NoMem>
        ensures { IfOk result (λ ns. ns ≡ self ++ name.now ∷ []) }
    {
        let Names { names } = self;
        let copy = name.try_clone(alloc)?;
        Ok(Names {
            names: names.with(alloc, copy)?,
        })
    }

    /// With these names too. The only error is want of memory.
    pub fn with_all(self, alloc: Global, names: &[Spelling]) -> Result<Names, NoMem>
        ensures { IfOk result (λ ns. ns ≡ self ++ texts names.now) }
    {
        let mut all = self;
        for name in names {
            all = all.with(alloc, &name.text)?;
        }
        Ok(all)
    }

    /// The place of the first name that is this one; None exactly where there is none.
    pub fn place_of(&self, name: &Name) -> Option<u32>
        ensures { result ≡ outlines.place_of self.now name.now }
    {
        self.names.place_of(name)
    }

    /// Whether this name is among them.
    pub fn contains(&self, name: &Name) -> bool
        ensures { result ≡ outlines.is_in name.now self.now }
    {
        self.names.place_of(name).is_some()
    }

    /// The names in order.
    pub fn as_slice(&self) -> &[Name]
        ensures { result.now ≡ self.now }
    {
        self.names.as_slice()
    }

    /// The names without their table.
    pub fn into_list(self) -> List<Name>
        ensures { result ≡ self }
    {
        let Names { names } = self;
        names.into_items()
    }
}
