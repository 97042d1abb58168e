//! What parts are read as that go on after a beginning.

use crate::front_list::FrontList;
use raw_ast::{Computation, RawAtom, RawCode, RawType, Spelling};

/// What stands after `(` and a name in a type.
#[derive(Drop)]
pub enum AfterTypeName {
    /// Arguments of the type of this name, at least one.
    Arguments(FrontList<RawType>),
    /// Further factors of a product that begins with the type of this name, at least one.
    Factors(FrontList<RawType>),
}

/// What is left of a variant: fields, and the end.
#[derive(Drop)]
pub struct VariantRest {
    pub fields: FrontList<RawType>,
    /// The type's name at the end.
    pub end: Spelling,
    /// The names after it.
    pub parameters: FrontList<Spelling>,
}

/// What stands after a name in a variant.
#[derive(Drop)]
pub enum AfterName {
    /// The name was a field's type, and more fields and the end follow.
    Fields(VariantRest),
    /// The name was the end, and these names follow.
    Parameters(FrontList<Spelling>),
}

/// What stands after a function's name in a definition's name.
#[derive(Drop)]
pub struct NameEnd {
    pub turn: Option<Spelling>,
    pub back: Option<Spelling>,
}

/// What stands after `(` and a constructor in an atom.
#[derive(Drop)]
pub enum AfterConstructor {
    /// Its parts, at least one.
    Arguments(FrontList<RawAtom>),
    /// Further parts of a tuple that begins with the constructor, at least one.
    Parts(FrontList<RawAtom>),
}

/// Code after `let` and its variable.
#[derive(Drop)]
pub enum Bound {
    /// The variable takes a computation's value.
    Computation(Computation, RawCode),
    /// The variable is an atom.
    Atom(RawAtom, RawCode),
}
