//! What a text declares, found by name.

ghost use Rattle.std.specs.Prelude.{◌≡◌, IfOk};
ghost use Rattle.raw_meaning.specs.Outlines as outlines;
ghost use Rattle.raw_meaning.specs.Lookups as lookups;

use crate::by_kind::{ByKind, first_of};
use crate::by_name::ByName;
use crate::definition_names;
use crate::type_table::{TypeTable, type_tables};
use aen_base::{List, Name, NoMem};
use pure_ast::{CtorId, DefKind};
use raw_ast::DefinitionName;
use raw_meaning::{DefinitionHead, Outline};
use std::alloc::Global;
use std::marker::Model;

/// What a text declares, found by name in expected constant time: contracts see its outline.
#[derive(Drop)]
pub struct Tables {
    types: ByName<TypeTable>,
    functions: ByName<Name>,
    definitions: ByKind<DefinitionHead>,
}

impl Model for Tables {
    ghost use Rattle.raw_meaning.specs.declared.outline.Outline.{Outline};
    ghost use Rattle.raw_meaning.specs.contracts.outline.Outline as outline;

    ghost Value = { Outline };

    ghost coded = { outline.the_row.coded };

    ghost view = { λ s. record { types = s.types; functions = s.functions; definitions = s.definitions } };
}

impl Tables {
    /// An outline with its tables. The only error is want of memory.
    pub fn new(alloc: Global, outline: Outline) -> Result<Tables, NoMem>
        ensures { IfOk result (λ t. t ≡ outline) }
    {
        let Outline {
            types,
            functions,
            definitions,
        } = outline;
        let types = type_tables(alloc, types)?;
        let types = ByName::new(alloc, types)?;
        let functions = ByName::new(alloc, functions)?;
        let definitions = ByKind::new(alloc, definitions)?;
        Ok(Tables {
            types,
            functions,
            definitions,
        })
    }

    /// The first type of this name, with its number of type parameters.
    pub fn type_of(&self, name: &Name) -> Option<(u32, usize)>
        ensures { result ≡ lookups.type_of self.now name.now }
    {
        let (place, head) = self.types.find(name)?;
        Some((place, head.parameters))
    }

    /// The first variant of this name of the first type of the other, with its number of fields.
    pub fn constructor_of(&self, ty: &Name, variant: &Name) -> Option<(CtorId, usize)>
        ensures { result ≡ lookups.constructor_of self.now ty.now variant.now }
    {
        let (place, head) = self.types.find(ty)?;
        head.variant_of(place, variant)
    }

    /// Whether a definition bears this function's name.
    pub fn has_function(&self, name: &Name) -> bool
        ensures { result ≡ outlines.is_in name.now self.now.functions }
    {
        self.functions.place_of(name).is_some()
    }

    /// What a definition of this name is for; None exactly where no definition bears the function's
    /// name, or a number in the name is none.
    pub fn kind_of(&self, name: &DefinitionName) -> Option<DefKind>
        ensures { result ≡ outlines.kind_of self.now.functions name.now }
    {
        definition_names::kind_by(self.functions.place_of(&name.function.text), name)
    }

    /// The first definition of this name, with its number of parameters.
    pub fn definition_of(&self, name: &DefinitionName) -> Option<(u32, usize)>
        ensures { result ≡ lookups.definition_of self.now name.now }
    {
        let kind = self.kind_of(name)?;
        first_of(&self.definitions, &kind)
    }

    /// The functions' names by number.
    pub fn into_functions(self) -> List<Name>
        ensures { result ≡ self.functions }
    {
        let Tables {
            types: _types,
            functions,
            definitions: _definitions,
        } = self;
        functions.into_items()
    }
}
