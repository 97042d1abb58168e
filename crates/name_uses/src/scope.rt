//! The names in scope: a map from each name to its newest variable, and a list with what each name
//! hides, by which it is taken off again. So a name is found, added and taken off in constant time.

ghost use Rattle.std.specs.Prelude.{◌≡◌, [], ◌∷◌, ◌++◌, ◌-◌, length, take, IfOk};
ghost use Rattle.name_uses.specs.Scopes as spec;

use aen_base::{List, Name, NoMem};
use indexmap::IndexMap;
use std::alloc::Global;
use std::marker::Model;

/// A name in scope.
#[derive(Drop)]
pub(crate) struct InScope {
    name: Name,
    variable: u32,
    /// The variable of this name that it hides.
    hides: Option<u32>,
}

/// The names in scope with their variables, the newest last: contracts see the list of them.
pub(crate) struct Scope {
    names: List<InScope>,
    /// The newest variable of each name.
    table: IndexMap<Name, Option<u32>>,
}

impl Drop for Scope {
    fn drop(self) {
        let Scope { names: _, table: _ } = self;
    }
}

impl Model for Scope {
    ghost use Rattle.std.specs.Prelude.{List, ℕ};
    ghost use Rattle.std.specs.Coded.{coded_list, coded_ℕ, coded×};

    ghost Value = { List (List ℕ × ℕ) };

    ghost coded = { coded_list (coded× (coded_list coded_ℕ) coded_ℕ) };

    ghost use Rattle.name_uses.specs.Hiding.{pairs, IsTable, Hide};

    ghost view = { λ s. pairs s.names };

    ghost use Rattle.std.specs.Prelude.{[]};
    ghost use Rattle.std.specs.Str.{bytes_eq};
    ghost use Rattle.indexmap.specs.IndexMap.{get};

    ghost invariant = { λ s. IsTable (get bytes_eq s.table) (pairs s.names) × Hide [] s.names };
}

impl Scope {
    /// No names.
    pub(crate) fn new(alloc: Global) -> Scope
        ensures { result ≡ [] }
    {
        Scope {
            names: List::new(alloc),
            table: IndexMap::new(alloc),
        }
    }

    /// How many names there are.
    pub(crate) fn len(&self) -> usize
        ensures { result ≡ length self.now }
    {
        self.names.len()
    }

    /// The newest variable of this name.
    pub(crate) fn find(&self, name: &Name) -> Option<u32>
        ensures { result ≡ spec.variable_of self.now name.now }
    {
        *self.table.get(name)?
    }

    /// One more name.
    pub(crate) fn with(self, alloc: Global, name: &Name, variable: u32) -> Result<Scope, NoMem>
        ensures { IfOk result (λ s. s ≡ self ++ (name.now, variable) ∷ []) }
    {
        let hides = self.find(name);
        let key = name.try_clone(alloc)?;
        let own = name.try_clone(alloc)?;
        let Scope {
            mut names,
            mut table,
        } = self;
        table.insert(key, Some(variable))?;
        names.push(InScope {
            name: own,
            variable,
            hides,
        })?;
        Ok(Scope { names, table })
    }

    /// The names without the last.
    fn without_last(self) -> Result<Scope, NoMem>
        ensures { IfOk result (λ s. s ≡ take (length self - 1) self) }
    {
        let Scope {
            mut names,
            mut table,
        } = self;
        match names.pop() {
            None => Ok(Scope { names, table }),
            Some(last) => {
                let InScope {
                    name,
                    variable: _,
                    hides,
                } = last;
                table.insert(name, hides)?;
                Ok(Scope { names, table })
            }
        }
    }

    /// The first of the names, this many.
    pub(crate) fn first(self, count: usize) -> Result<Scope, NoMem>
        ensures { IfOk result (λ s. s ≡ take count self) }
    {
        let mut scope = self;
        while scope.len() > count {
            let fewer = scope.without_last()?;
            scope = fewer;
        }
        Ok(scope)
    }
}
