use crate::Ty;
use aen_base::{List, Name, Span};

/// A variant of a declared type. A struct has one, with the struct's own name.
#[derive(Drop)]
pub struct Variant {
    pub name: Name,
    /// The fields in written order. A field without a name has its place as its name: `0`, `1` ..
    pub fields: List<(Name, Ty)>,
}

/// A declared type.
#[derive(Drop)]
pub struct TypeDecl {
    pub name: Name,
    /// Where the name stands in the source.
    pub span: Span,
    /// The names of the type parameters.
    pub params: List<Name>,
    pub is_struct: bool,
    pub variants: List<Variant>,
}

/// The signature of a function: how many type parameters and regions it has, the types of its
/// parameters and of its result.
#[derive(Drop)]
pub struct Sig {
    pub type_params: u32,
    pub regions: u32,
    pub params: List<Ty>,
    pub result: Ty,
}
