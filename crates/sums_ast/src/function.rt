use crate::Block;
use aen_base::{List, Name, Span};

/// A function: its parameters are its first variables. Every parameter and the result are `u32`.
#[derive(Drop)]
pub struct Function {
    /// The function's name.
    pub name: Name,
    /// Where the name stands.
    pub span: Span,
    /// How many of the variables are parameters.
    pub parameters: u32,
    /// The variables' names: parameters first, then bindings in source order.
    pub variables: List<Name>,
    /// The body.
    pub body: Block,
}

/// A program: its functions in source order, numbered from 0.
#[derive(Drop)]
pub struct Program {
    /// The functions.
    pub functions: List<Function>,
}
