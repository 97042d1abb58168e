use aen_base::List;
use core_ty::{Sig, Ty, TypeDecl};
use rust_ast::Variable;

/// What stays the same in a function.
#[derive(Drop)]
pub struct Scope {
    /// The declared types.
    pub decls: List<TypeDecl>,
    /// The signatures of all functions.
    pub sigs: List<Sig>,
    /// The function's variables.
    pub variables: List<Variable>,
    /// The type of its result.
    pub result: Ty,
}

/// A loop around.
#[derive(Drop)]
pub struct Loop {
    pub number: u32,
    /// Whether it is written with `while`.
    pub is_while: bool,
    /// The type that is expected of it.
    pub expected: Option<Ty>,
    /// The type of its first `break`.
    pub found: Option<Ty>,
    /// Whether it has a `break`.
    pub broken: bool,
}

/// What was found so far.
#[derive(Drop)]
pub struct State {
    /// The types of the variables by number.
    pub types: List<Ty>,
    /// The loops around, the innermost first.
    pub loops: List<Loop>,
}
