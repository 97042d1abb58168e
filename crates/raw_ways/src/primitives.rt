//! Primitives.

ghost use Rattle.std.specs.Prelude.{◌≡◌};
ghost use Rattle.raw_ways.specs.Ways as spec;

use crate::words::{bool_primitive, int_of, int_primitive};
use aen_base::{Builtin, RegionId};
use pure_ast::Primitive;
use raw_ast::Operation;
use text_table::Lexeme;

fn operation(primitive: Primitive, last: Lexeme) -> Operation
    ensures { result ≡ spec.operation primitive last }
{
    Operation {
        primitive,
        span: last.span,
    }
}

/// An operation of an integer type.
pub fn int_operation(ty: Lexeme, operator: Lexeme) -> Operation
    ensures { result ≡ spec.int_operation ty operator }
{
    operation(int_primitive(int_of(ty.class), operator.class), operator)
}

/// An operation of bools.
pub fn bool_operation(operator: Lexeme) -> Operation
    ensures { result ≡ spec.bool_operation operator }
{
    operation(bool_primitive(operator.class), operator)
}

/// A cast from an integer type to another.
pub fn cast_operation(from: Lexeme, to: Lexeme) -> Operation
    ensures { result ≡ spec.cast_operation from to }
{
    operation(Primitive::Cast(int_of(from.class), int_of(to.class)), to)
}

/// A cast of bools to an integer type.
pub fn bool_cast(to: Lexeme) -> Operation
    ensures { result ≡ spec.bool_cast to }
{
    operation(Primitive::CastBool(int_of(to.class)), to)
}

/// `Box::new`.
pub fn box_new(word: Lexeme) -> Operation
    ensures { result ≡ spec.box_new word }
{
    operation(Primitive::Forward(Builtin::BoxNew), word)
}

fn in_memory(builtin: Builtin, word: Lexeme, end: Option<Operation>) -> Operation
    ensures { result ≡ spec.in_memory builtin word end }
{
    match end {
        None => operation(Primitive::Forward(builtin), word),
        Some(back) => back,
    }
}

/// `replace`, or its backward primitive.
pub fn replace_operation(word: Lexeme, end: Option<Operation>) -> Operation
    ensures { result ≡ spec.replace_operation word end }
{
    in_memory(Builtin::Replace, word, end)
}

/// `swap`, or a backward primitive of it.
pub fn swap_operation(word: Lexeme, end: Option<Operation>) -> Operation
    ensures { result ≡ spec.swap_operation word end }
{
    in_memory(Builtin::Swap, word, end)
}

/// The backward primitive of `replace`.
pub fn replace_back(word: Lexeme) -> Operation
    ensures { result ≡ spec.replace_back word }
{
    operation(Primitive::Back(Builtin::Replace, RegionId(0)), word)
}

/// The backward primitive of `swap` for its first region.
pub fn swap_back0(word: Lexeme) -> Operation
    ensures { result ≡ spec.swap_back0 word }
{
    operation(Primitive::Back(Builtin::Swap, RegionId(0)), word)
}

/// The backward primitive of `swap` for its second region.
pub fn swap_back1(word: Lexeme) -> Operation
    ensures { result ≡ spec.swap_back1 word }
{
    operation(Primitive::Back(Builtin::Swap, RegionId(1)), word)
}

/// The end of a word that stands for its forward primitive.
pub fn no_operation() -> Option<Operation>
    ensures { result ≡ spec.no_operation }
{
    None
}

/// The end of a word with a backward primitive.
pub fn some_operation(operation: Operation) -> Option<Operation>
    ensures { result ≡ spec.some_operation operation }
{
    Some(operation)
}
