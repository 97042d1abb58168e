//! What a text declares.

use aen_base::{List, Name};
use pure_ast::DefKind;

/// A variant's name and how many fields it has.
#[derive(Drop)]
pub struct VariantHead {
    pub name: Name,
    pub fields: usize,
}

/// A declared type's name, how many type parameters it has, and its variants.
#[derive(Drop)]
pub struct TypeHead {
    pub name: Name,
    pub parameters: usize,
    pub variants: List<VariantHead>,
}

/// What a definition is for, and how many parameters it has.
#[derive(Drop)]
pub struct DefinitionHead {
    pub kind: DefKind,
    pub parameters: usize,
}

/// What a text declares: its types and definitions in order, and its functions' names by number. A
/// definition whose name has a number that is none is left out.
#[derive(Drop)]
pub struct Outline {
    pub types: List<TypeHead>,
    pub functions: List<Name>,
    pub definitions: List<DefinitionHead>,
}
