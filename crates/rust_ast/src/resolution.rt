use crate::resolved::Block;
use crate::written::Written;
use aen_base::{List, Name, Span};

/// A source file in which each use is the number of what it names: a declared type, a function, a
/// variable of the function, a type parameter or a lifetime of the item.
#[derive(Drop)]
pub struct Resolved {
    /// The declared types in source order.
    pub types: List<Declared>,
    /// The functions in source order.
    pub functions: List<Function>,
}

/// A declared type as it is written.
#[derive(Drop)]
pub struct Declared {
    pub name: Name,
    /// Where the name stands.
    pub span: Span,
    /// The names of the type parameters.
    pub params: List<Name>,
    pub is_struct: bool,
    /// Each variant's name and fields. A struct has one, with its own name. A field without a name
    /// has its place as its name: `0`, `1` ..
    pub variants: List<(Name, List<(Name, Written)>)>,
}

/// A function as it is written.
#[derive(Drop)]
pub struct Function {
    pub name: Name,
    /// Where the name stands.
    pub span: Span,
    pub lifetimes: List<Name>,
    pub type_params: List<Name>,
    /// The types of the parameters.
    pub params: List<Written>,
    /// The type of the result, if one is written; else it is unit.
    pub result: Option<Written>,
    /// The variables by number: the parameters, then the bindings in source order.
    pub variables: List<Variable>,
    pub body: Block,
}

/// A variable of a function. It may be written where `mut` stands before it, or where its `let` has
/// no value.
#[derive(Drop)]
pub struct Variable {
    pub name: Name,
    /// Where the name stands.
    pub span: Span,
    /// Whether `mut` is written.
    pub mutable: bool,
    /// Whether its `let` has no value.
    pub late: bool,
}
