ghost use Rattle.std.specs.Prelude.{◌≡◌};

use crate::by_name::{ByName, Named};
use aen_base::{Name, TypeId};

/// A declared type as uses see it.
#[derive(Drop)]
pub struct TypeNames {
    pub name: Name,
    pub is_struct: bool,
    /// The names of an enum's variants; a struct has none.
    pub variants: ByName<Name>,
}

impl Named for TypeNames {
    ghost name_of = { λ t. t.name };

    fn name(&self) -> &Name {
        &self.name
    }
}

/// What a name of the space of functions and structs means.
#[derive(Clone, Copy, Debug, PartialEq, Eq)]
pub enum Meaning {
    /// A function, by its number.
    Function(u32),
    /// A struct without fields.
    Empty(TypeId),
    /// A struct with fields by place.
    Placed(TypeId),
    /// A struct with fields by name, which has no constructor.
    Named(TypeId),
}

/// A function or a struct as uses see it.
#[derive(Drop)]
pub struct ValueNames {
    pub name: Name,
    pub meaning: Meaning,
}

impl Named for ValueNames {
    ghost name_of = { λ v. v.name };

    fn name(&self) -> &Name {
        &self.name
    }
}

/// What a program declares, as uses see it.
#[derive(Drop)]
pub struct Tables {
    /// The declared types in source order.
    pub types: ByName<TypeNames>,
    /// The functions and structs in source order.
    pub values: ByName<ValueNames>,
    /// Whether `use std::mem;` stands in it.
    pub mem: bool,
}

/// What an item declares for its own types.
#[derive(Drop)]
pub struct Generics {
    pub lifetimes: ByName<Name>,
    pub type_params: ByName<Name>,
}
