//! How patterns are read.

ghost use Rattle.std.specs.Prelude.{◌≡◌, IfOk};
ghost use Rattle.source_ways.specs.Patterns as spec;

use aen_base::{Boxed, IntTy, List, NoMem, Span};
use rust_ast::Ident;
use rust_ast::source_patterns::{FieldPat, FieldPatNode, Pat, PatNode};
use rust_ast::source_types::{Path, Written};
use source_grammar::Lexeme;
use source_ways::constructors::{AfterMem, AfterName, Given};
use source_ways::front_list::FrontList;
use source_ways::path_nodes::{box_new, built_in, no_turbo, one, turbo, two};
use source_ways::says::{ident, number_in, truth};
use source_ways::spanned::Spanned;
use std::alloc::Global;

/// A name with `mut`. The only error is want of memory.
pub fn binding(alloc: Global, whole: Span, mutable: Lexeme, name: Lexeme) -> Result<Pat, NoMem>
    ensures { IfOk result (λ it. it ≡ spec.binding whole mutable name) }
{
    let name = ident(alloc, name)?;
    Ok(Pat {
        node: PatNode::MutBind(whole, name),
    })
}

/// An integer: whether `-` stands before it, its value and suffix.
fn number_of(whole: Span, negative: bool, number: (u128, Option<IntTy>)) -> Pat
    ensures { result ≡ spec.number_of whole negative number }
{
    let (value, suffix) = number;
    Pat {
        node: PatNode::Number(whole, negative, value, suffix),
    }
}

/// An integer with `-` before it.
pub fn negative_pattern(whole: Span, minus: Lexeme, number: Lexeme) -> Pat
    ensures { result ≡ spec.negative_pattern whole minus number }
{
    number_of(whole, true, number_in(number.content))
}

/// An integer.
pub fn number_pattern(whole: Span, number: Lexeme) -> Pat
    ensures { result ≡ spec.number_pattern whole number }
{
    number_of(whole, false, number_in(number.content))
}

/// `true` or `false`.
pub fn truth_pattern(whole: Span, word: Lexeme) -> Pat
    ensures { result ≡ spec.truth_pattern whole word }
{
    Pat {
        node: PatNode::Truth(whole, truth(word)),
    }
}

/// What stands in brackets: one pattern is that pattern, else they are a tuple.
fn enclosed_pattern(whole: Span, pats: List<Pat>) -> Pat
    ensures { result ≡ spec.enclosed_pattern whole pats }
{
    let mut pats = pats;
    if pats.len() == 1 {
        if let Some(pat) = pats.pop() {
            return pat;
        }
    }
    Pat {
        node: PatNode::Tuple(whole, pats),
    }
}

/// Patterns in brackets: one is that pattern, else they are a tuple.
pub fn bracketed_pattern(whole: Span, bracket: Lexeme, pats: Spanned<FrontList<Pat>>) -> Pat
    ensures { result ≡ spec.bracketed_pattern whole bracket pats }
{
    enclosed_pattern(whole, pats.value.into_list())
}

/// A path with its parts.
fn with_parts(whole: Span, path: Path, parts: Given) -> Pat
    ensures { result ≡ spec.with_parts whole path parts }
{
    let node = match parts {
        Given::Placed(pats) => PatNode::Construct(whole, path, pats.into_list()),
        Given::Named(fields) => PatNode::Literal(whole, path, fields.into_list()),
    };
    Pat { node }
}

/// A name, and what stands after it: alone it binds or is a struct without fields.
fn begun_by(whole: Span, name: Ident, after: AfterName) -> Pat
    ensures { result ≡ spec.begun_by whole name after }
{
    match after {
        AfterName::Nothing => Pat {
            node: PatNode::Lone(name),
        },
        AfterName::Parts(parts) => with_parts(whole, one(name), parts),
        AfterName::Second(types, second, parts) => {
            with_parts(whole, two(name, types, second), parts)
        }
        AfterName::BuiltIn(word, span, parts) => {
            let path = Span {
                lo: whole.lo,
                hi: span.hi,
            };
            with_parts(whole, built_in(word, path, name.span, false), parts)
        }
        AfterName::StdBuiltIn(mem, word, span, parts) => {
            let path = Span {
                lo: whole.lo,
                hi: span.hi,
            };
            with_parts(whole, built_in(word, path, mem, true), parts)
        }
    }
}

/// A pattern that begins with this name. The only error is want of memory.
pub fn named_pattern(
    alloc: Global,
    whole: Span,
    name: Lexeme,
    rest: Spanned<AfterName>,
) -> Result<Pat, NoMem>
    ensures { IfOk result (λ it. it ≡ spec.named_pattern whole name rest) }
{
    let name = ident(alloc, name)?;
    Ok(begun_by(whole, name, rest.value))
}

/// `Box::new` with its parts.
pub fn box_new_pattern(
    whole: Span,
    word: Lexeme,
    colons: Lexeme,
    new: Lexeme,
    parts: Spanned<Given>,
) -> Pat
    ensures { result ≡ spec.box_new_pattern whole word colons new parts }
{
    with_parts(whole, box_new(word.span, new.span), parts.value)
}

/// A field's name, and its pattern: the name alone binds. The only error is want of memory.
fn field_of(alloc: Global, name: Ident, pat: Option<Pat>) -> Result<FieldPat, NoMem>
    ensures { IfOk result (λ it. it ≡ spec.field_of name pat) }
{
    let node = match pat {
        None => FieldPatNode::Short(name),
        Some(pat) => FieldPatNode::Given(name.span, name.name, Boxed::new(alloc, pat)?),
    };
    Ok(FieldPat { node })
}

/// A field, with its pattern if one is written. The only error is want of memory.
pub fn field_pattern(
    alloc: Global,
    whole: Span,
    name: Lexeme,
    pat: Spanned<Option<Pat>>,
) -> Result<FieldPat, NoMem>
    ensures { IfOk result (λ it. it ≡ spec.field_pattern whole name pat) }
{
    let name = ident(alloc, name)?;
    Ok(field_of(alloc, name, pat.value)?)
}

/// A second name after the first one's types. The only error is want of memory.
pub fn second_after_types(
    alloc: Global,
    whole: Span,
    less: Lexeme,
    types: Spanned<FrontList<Written>>,
    colons: Lexeme,
    name: Lexeme,
    parts: Spanned<Given>,
) -> Result<AfterName, NoMem>
    ensures { IfOk result (λ it. it ≡ spec.second_after_types whole less types colons name parts) }
{
    let name = ident(alloc, name)?;
    Ok(AfterName::Second(turbo(types.value), name, parts.value))
}

/// A second name directly after the first. The only error is want of memory.
pub fn second_name(
    alloc: Global,
    whole: Span,
    name: Lexeme,
    parts: Spanned<Given>,
) -> Result<AfterName, NoMem>
    ensures { IfOk result (λ it. it ≡ spec.second_name whole name parts) }
{
    let name = ident(alloc, name)?;
    Ok(AfterName::Second(no_turbo(), name, parts.value))
}

/// `replace` or `swap` after `mem`.
pub fn built_in_name(whole: Span, word: Lexeme, parts: Spanned<Given>) -> AfterName
    ensures { result ≡ spec.built_in_name whole word parts }
{
    AfterName::BuiltIn(word.class, word.span, parts.value)
}

/// `mem` after `std`, and what stands after it. The only error is want of memory.
fn in_std(alloc: Global, mem: Lexeme, rest: AfterMem) -> Result<AfterName, NoMem>
    ensures { IfOk result (λ it. it ≡ spec.in_std mem rest) }
{
    match rest {
        AfterMem::Second(parts) => {
            let mem = ident(alloc, mem)?;
            Ok(AfterName::Second(no_turbo(), mem, parts))
        }
        AfterMem::BuiltIn(word, span, parts) => {
            Ok(AfterName::StdBuiltIn(mem.span, word, span, parts))
        }
    }
}

/// `mem` after `std`. The only error is want of memory.
pub fn std_mem_name(
    alloc: Global,
    whole: Span,
    mem: Lexeme,
    rest: Spanned<AfterMem>,
) -> Result<AfterName, NoMem>
    ensures { IfOk result (λ it. it ≡ spec.std_mem_name whole mem rest) }
{
    Ok(in_std(alloc, mem, rest.value)?)
}

/// `replace` or `swap` after `std::mem`.
pub fn std_built_in_name(
    whole: Span,
    colons: Lexeme,
    word: Lexeme,
    parts: Spanned<Given>,
) -> AfterMem
    ensures { result ≡ spec.std_built_in_name whole colons word parts }
{
    AfterMem::BuiltIn(word.class, word.span, parts.value)
}
