//! How types are read.

ghost use Rattle.std.specs.Prelude.{◌≡◌, IfOk};
ghost use Rattle.source_ways.specs.Types as spec;

use aen_base::{Boxed, List, NoMem, Span};
use rust_ast::source_types::{Lifetime, Written, WrittenNode};
use source_grammar::Lexeme;
use source_ways::front_list::FrontList;
use source_ways::says::{ident, int_type_in};
use source_ways::spanned::Spanned;
use std::alloc::Global;

/// A word for an integer type.
pub fn int_type(whole: Span, word: Lexeme) -> Written
    ensures { result ≡ spec.int_type whole word }
{
    Written {
        node: WrittenNode::Int(whole, int_type_in(word.content)),
    }
}

/// What stands in brackets: nothing is unit, one type is that type, more are a tuple.
fn enclosed_type(whole: Span, types: List<Written>) -> Written
    ensures { result ≡ spec.enclosed_type whole types }
{
    let mut types = types;
    if types.len() == 1 {
        if let Some(ty) = types.pop() {
            return ty;
        }
    }
    if types.is_empty() {
        return Written {
            node: WrittenNode::Unit(whole),
        };
    }
    Written {
        node: WrittenNode::Tuple(whole, types),
    }
}

/// Types in brackets: none is unit, one is that type, more are a tuple.
pub fn bracketed_type(whole: Span, bracket: Lexeme, types: Spanned<FrontList<Written>>) -> Written
    ensures { result ≡ spec.bracketed_type whole bracket types }
{
    enclosed_type(whole, types.value.into_list())
}

/// A reference type. The only error is want of memory.
pub fn reference_type(
    alloc: Global,
    whole: Span,
    mark: Lexeme,
    life: Spanned<Lifetime>,
    mutable: Spanned<bool>,
    ty: Spanned<Written>,
) -> Result<Written, NoMem>
    ensures { IfOk result (λ it. it ≡ spec.reference_type whole mark life mutable ty) }
{
    let ty = Boxed::new(alloc, ty.value)?;
    Ok(Written {
        node: WrittenNode::Ref(whole, life.value, mutable.value, ty),
    })
}

/// A `Box` of a type. The only error is want of memory.
pub fn boxed_type(
    alloc: Global,
    whole: Span,
    word: Lexeme,
    less: Lexeme,
    ty: Spanned<Written>,
    greater: Lexeme,
) -> Result<Written, NoMem>
    ensures { IfOk result (λ it. it ≡ spec.boxed_type whole word less ty greater) }
{
    let ty = Boxed::new(alloc, ty.value)?;
    Ok(Written {
        node: WrittenNode::Boxed(whole, ty),
    })
}

/// A declared type or a type parameter, with its arguments. The only error is want of memory.
pub fn named_type(
    alloc: Global,
    whole: Span,
    name: Lexeme,
    arguments: Spanned<FrontList<Written>>,
) -> Result<Written, NoMem>
    ensures { IfOk result (λ it. it ≡ spec.named_type whole name arguments) }
{
    let name = ident(alloc, name)?;
    Ok(Written {
        node: WrittenNode::Named(whole, name, arguments.value.into_list()),
    })
}
