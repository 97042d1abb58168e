//! What a name may not have in common with another.

ghost use Rattle.std.specs.Prelude.{◌≡◌};
ghost use Rattle.name_clashes.specs.Twice as spec;

use aen_base::{Name, Span};

/// What the name of an item or of a type parameter may not have in common with another.
#[derive(Clone, Copy, Debug, PartialEq, Eq)]
pub enum Kind {
    /// An enum, or a struct whose fields have names.
    Type,
    /// A function.
    Value,
    /// A struct with a constructor.
    Both,
    /// A type parameter.
    Parameter,
}

/// A name that the whole program sees, or a type parameter.
#[derive(Drop)]
pub struct Entry {
    pub name: Name,
    pub span: Span,
    pub kind: Kind,
}

/// Whether this is a name of the space of types.
fn is_type(kind: Kind) -> bool
    ensures { result ≡ spec.is_type kind }
{
    match kind {
        Kind::Type => true,
        Kind::Value => false,
        Kind::Both => true,
        Kind::Parameter => false,
    }
}

/// Whether this is a name of the space of functions and constructors.
fn is_value(kind: Kind) -> bool
    ensures { result ≡ spec.is_value kind }
{
    match kind {
        Kind::Type => false,
        Kind::Value => true,
        Kind::Both => true,
        Kind::Parameter => false,
    }
}

/// Whether this is the name of a type parameter.
fn is_parameter(kind: Kind) -> bool
    ensures { result ≡ spec.is_parameter kind }
{
    match kind {
        Kind::Type => false,
        Kind::Value => false,
        Kind::Both => false,
        Kind::Parameter => true,
    }
}

/// Whether two names of these kinds must differ.
pub(crate) fn must_differ(a: Kind, b: Kind) -> bool
    ensures { result ≡ spec.must_differ a b }
{
    (is_type(a) && is_type(b))
        || (is_value(a) && is_value(b))
        || (is_type(a) && is_parameter(b))
        || (is_parameter(a) && is_type(b))
}
