use crate::{DefinitionName, RawCode, RawType, Spelling};
use aen_base::List;

/// A variant of a type: its name, the types of its fields, and its end, the type's name with the names
/// after it.
#[derive(Drop)]
pub struct Variant {
    pub name: Spelling,
    pub fields: List<RawType>,
    pub end: Spelling,
    pub parameters: List<Spelling>,
}

/// What a declared type consists of: variants, or the fields of a structure.
#[derive(Drop)]
pub enum Members {
    Variants(List<Variant>),
    Fields(List<(Spelling, RawType)>),
}

/// A declaration of a type: its name, its type parameters, and what it consists of.
#[derive(Drop)]
pub struct Declaration {
    pub name: Spelling,
    pub parameters: List<Spelling>,
    pub members: Members,
}

/// A definition: its name, its type parameters, its parameters with their types, the type of its
/// result, and its code.
#[derive(Drop)]
pub struct Definition {
    pub name: DefinitionName,
    pub type_parameters: List<Spelling>,
    pub parameters: List<(Spelling, RawType)>,
    pub result: RawType,
    pub code: RawCode,
}

/// A text: declarations of types, and definitions.
#[derive(Drop)]
pub struct RawText {
    pub types: List<Declaration>,
    pub definitions: List<Definition>,
}
