//! How other expressions are read.

ghost use Rattle.std.specs.Prelude.{◌≡◌, IfOk, None};
ghost use Rattle.source_ways.specs.Expressions as spec;

use aen_base::{Boxed, IntTy, List, Name, NoMem, Span};
use rust_ast::Ident;
use rust_ast::source::{Expr, ExprNode};
use rust_ast::source_types::{Path, PathNode};
use source_grammar::Lexeme;
use source_ways::front_list::FrontList;
use source_ways::says::{ident, number_in, truth};
use source_ways::spanned::Spanned;
use std::alloc::Global;

/// Perhaps an expression, in a box. The only error is want of memory.
pub fn boxed(alloc: Global, value: Option<Expr>) -> Result<Option<Boxed<Expr>>, NoMem>
    ensures { IfOk result (λ it. it ≡ value) }
{
    match value {
        Some(value) => {
            let value = Boxed::new(alloc, value)?;
            Ok(Some(value))
        }
        None => Ok(None),
    }
}

/// `return`, perhaps with a value. The only error is want of memory.
pub fn returned(
    alloc: Global,
    whole: Span,
    word: Lexeme,
    value: Spanned<Option<Expr>>,
) -> Result<Expr, NoMem>
    ensures { IfOk result (λ it. it ≡ spec.returned whole word value) }
{
    let value = boxed(alloc, value.value)?;
    Ok(Expr {
        node: ExprNode::Give(whole, value),
    })
}

/// `break`, perhaps with a value. The only error is want of memory.
pub fn broken(
    alloc: Global,
    whole: Span,
    word: Lexeme,
    value: Spanned<Option<Expr>>,
) -> Result<Expr, NoMem>
    ensures { IfOk result (λ it. it ≡ spec.broken whole word value) }
{
    let value = boxed(alloc, value.value)?;
    Ok(Expr {
        node: ExprNode::Leave(whole, value),
    })
}

/// `return` with a value. The only error is want of memory.
pub fn returned_value(
    alloc: Global,
    whole: Span,
    word: Lexeme,
    value: Spanned<Expr>,
) -> Result<Expr, NoMem>
    ensures { IfOk result (λ it. it ≡ spec.returned_value whole word value) }
{
    let value = Boxed::new(alloc, value.value)?;
    Ok(Expr {
        node: ExprNode::Give(whole, Some(value)),
    })
}

/// `break` with a value. The only error is want of memory.
pub fn broken_value(
    alloc: Global,
    whole: Span,
    word: Lexeme,
    value: Spanned<Expr>,
) -> Result<Expr, NoMem>
    ensures { IfOk result (λ it. it ≡ spec.broken_value whole word value) }
{
    let value = Boxed::new(alloc, value.value)?;
    Ok(Expr {
        node: ExprNode::Leave(whole, Some(value)),
    })
}

fn number_of(whole: Span, number: (u128, Option<IntTy>)) -> Expr
    ensures { result ≡ spec.number_of whole number }
{
    let (size, suffix) = number;
    Expr {
        node: ExprNode::Number(whole, false, size, suffix),
    }
}

/// An integer.
pub fn number_expression(whole: Span, number: Lexeme) -> Expr
    ensures { result ≡ spec.number_expression whole number }
{
    number_of(whole, number_in(number.content))
}

/// `true` or `false`.
pub fn truth_expression(whole: Span, word: Lexeme) -> Expr
    ensures { result ≡ spec.truth_expression whole word }
{
    Expr {
        node: ExprNode::Truth(whole, truth(word)),
    }
}

/// What stands in brackets: one expression is that expression, else they are a tuple.
fn enclosed(whole: Span, parts: List<Expr>) -> Expr
    ensures { result ≡ spec.enclosed whole parts }
{
    let mut parts = parts;
    if parts.len() == 1 {
        if let Some(e) = parts.pop() {
            return e;
        }
    }
    Expr {
        node: ExprNode::Tuple(whole, parts),
    }
}

/// What stands in round brackets.
pub fn bracketed(whole: Span, bracket: Lexeme, parts: Spanned<FrontList<Expr>>) -> Expr
    ensures { result ≡ spec.bracketed whole bracket parts }
{
    enclosed(whole, parts.value.into_list())
}

/// The variable of this name.
fn variable(name: Ident) -> Expr
    ensures { result ≡ spec.value_of name None }
{
    let span = name.span;
    Expr {
        node: ExprNode::Path(
            span,
            Path {
                node: PathNode::One(name),
            },
        ),
    }
}

/// A field's name alone stands for the variable of this name too.
fn value_of(alloc: Global, name: &Ident, value: Option<Expr>) -> Result<Expr, NoMem>
    ensures { IfOk result (λ it. it ≡ spec.value_of name.now value) }
{
    match value {
        Some(value) => Ok(value),
        None => {
            let text = name.name.try_clone(alloc)?;
            Ok(variable(Ident {
                name: text,
                span: name.span,
            }))
        }
    }
}

/// A field with its value in braces. The only error is want of memory.
pub fn initial(
    alloc: Global,
    whole: Span,
    name: Lexeme,
    value: Spanned<Option<Expr>>,
) -> Result<(Span, Name, Expr), NoMem>
    ensures { IfOk result (λ it. it ≡ spec.initial whole name value) }
{
    let span = name.span;
    let name = ident(alloc, name)?;
    let value = value_of(alloc, &name, value.value)?;
    Ok((span, name.name, value))
}
