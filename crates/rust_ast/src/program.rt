use crate::Ident;
use crate::source::Block;
use crate::source_types::Written;
use aen_base::{List, Name, Span};

/// A source file: its items in order.
#[derive(Drop)]
pub struct Program {
    pub items: List<Item>,
}

/// An item.
#[derive(Drop)]
pub enum Item {
    /// `fn`.
    Function(Function),
    /// `struct`.
    Struct(Struct),
    /// `enum`.
    Enum(Enum),
    /// `use std::mem;`.
    UseMem,
}

/// A function as it is written.
#[derive(Drop)]
pub struct Function {
    pub name: Ident,
    pub lifetimes: List<Ident>,
    pub type_params: List<Ident>,
    pub params: List<Param>,
    /// The type of the result, if one is written; else it is unit.
    pub result: Option<Written>,
    pub body: Block,
}

/// A parameter.
#[derive(Drop)]
pub struct Param {
    /// Whether `mut` stands before the name.
    pub mutable: bool,
    pub name: Ident,
    pub ty: Written,
}

/// A struct as it is written.
#[derive(Drop)]
pub struct Struct {
    pub name: Ident,
    pub params: List<Ident>,
    pub fields: Fields,
}

/// The fields of a struct. Without fields both forms are one thing.
#[derive(Drop)]
pub enum Fields {
    /// Fields with names, in braces.
    Named(List<(Span, Name, Written)>),
    /// Fields by place, in round brackets; or none.
    Placed(List<Written>),
}

/// An enum as it is written.
#[derive(Drop)]
pub struct Enum {
    pub name: Ident,
    pub params: List<Ident>,
    pub variants: List<Variant>,
}

/// A variant of an enum, with its fields by place.
#[derive(Drop)]
pub struct Variant {
    pub name: Ident,
    pub fields: List<Written>,
}
