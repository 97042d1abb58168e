//! Atoms.

ghost use Rattle.std.specs.Prelude.{◌≡◌, IfOk};
ghost use Rattle.raw_ways.specs.Ways as spec;

use crate::spelling::spelled;
use crate::words::{int_of, is_true};
use aen_base::{List, NoMem};
use raw_ast::{Constructor, RawAtom};
use raw_values::front_list::FrontList;
use raw_values::rests::AfterConstructor;
use std::alloc::Global;
use text_table::Lexeme;

/// A variable.
pub fn variable_atom(name: Lexeme) -> RawAtom
    ensures { result ≡ spec.variable_atom name }
{
    RawAtom::var(spelled(name))
}

/// A number of an integer type.
pub fn number_atom(number: Lexeme, ty: Lexeme) -> RawAtom
    ensures { result ≡ spec.number_atom number ty }
{
    RawAtom::literal(spelled(number), int_of(ty.class))
}

/// `true` or `false`.
pub fn truth_atom(word: Lexeme) -> RawAtom
    ensures { result ≡ spec.truth_atom word }
{
    RawAtom::truth(is_true(word.class))
}

/// The unit.
pub fn unit_atom(alloc: Global) -> RawAtom
    ensures { result ≡ spec.unit_atom }
{
    RawAtom::tuple(List::new(alloc))
}

/// A constructor without arguments. The only error is want of memory.
pub fn lone(alloc: Global, name: Constructor) -> Result<RawAtom, NoMem>
    ensures { IfOk result (λ it. it ≡ spec.lone name) }
{
    Ok(RawAtom::built(alloc, name, List::new(alloc))?)
}

/// A tuple of two parts or more. The only error is want of memory.
pub fn tuple_atom(
    first: RawAtom,
    second: RawAtom,
    more: FrontList<RawAtom>,
) -> Result<RawAtom, NoMem>
    ensures { IfOk result (λ it. it ≡ spec.tuple_atom first second more) }
{
    let parts = more.push(second)?;
    let parts = parts.push(first)?;
    Ok(RawAtom::tuple(parts.into_list()))
}

/// What stands after a constructor in brackets: its arguments.
pub fn constructor_arguments(args: FrontList<RawAtom>) -> AfterConstructor
    ensures { result ≡ spec.constructor_arguments args }
{
    AfterConstructor::Arguments(args)
}

/// What stands after a constructor in brackets: the further parts of the tuple that it is the first of.
pub fn more_parts(parts: FrontList<RawAtom>) -> AfterConstructor
    ensures { result ≡ spec.more_parts parts }
{
    AfterConstructor::Parts(parts)
}

/// What stands in brackets and begins with a constructor: that constructor's term, or a tuple. The only error is want of memory.
pub fn bracketed(
    alloc: Global,
    name: Constructor,
    after: AfterConstructor,
) -> Result<RawAtom, NoMem>
    ensures { IfOk result (λ it. it ≡ spec.bracketed name after) }
{
    match after {
        AfterConstructor::Arguments(args) => Ok(RawAtom::built(alloc, name, args.into_list())?),
        AfterConstructor::Parts(parts) => {
            let first = lone(alloc, name)?;
            let parts = parts.push(first)?;
            Ok(RawAtom::tuple(parts.into_list()))
        }
    }
}

/// A variant by its type and its name.
pub fn variant_name(ty: Lexeme, name: Lexeme) -> Constructor
    ensures { result ≡ spec.variant_name ty name }
{
    Constructor::Of(spelled(ty), spelled(name))
}

/// The variant of a loop's exit that breaks.
pub fn brk(word: Lexeme) -> Constructor
    ensures { result ≡ spec.brk word }
{
    Constructor::Brk(word.span)
}

/// The variant of a loop's exit that returns.
pub fn ret(word: Lexeme) -> Constructor
    ensures { result ≡ spec.ret word }
{
    Constructor::Ret(word.span)
}
