use crate::spelled::Block;
use aen_base::{List, Name, Span};
use core_ty::{Sig, Ty, TypeDecl};

/// A source file that is typed, with the type of each literal and all that is implied between places
/// and values written out.
#[derive(Drop)]
pub struct Spelled {
    /// The declared types in source order.
    pub decls: List<TypeDecl>,
    /// The functions in source order.
    pub functions: List<Function>,
}

/// A function.
#[derive(Drop)]
pub struct Function {
    pub name: Name,
    /// Where the name stands.
    pub span: Span,
    /// The declared lifetimes, which are the first regions; those that follow have no name.
    pub lifetimes: List<Name>,
    pub type_params: List<Name>,
    pub sig: Sig,
    /// The names of the variables by number: the parameters, then the bindings in source order.
    pub variables: List<Name>,
    /// The types of the variables by number.
    pub types: List<Ty>,
    pub body: Block,
}
