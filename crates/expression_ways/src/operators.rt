//! How operators are read.

ghost use Rattle.std.specs.Prelude.{◌≡◌, IfOk};
ghost use Rattle.rust_ast.specs.Source as s;
ghost use Rattle.rust_ast.specs.SourceView.{expr_of};
ghost use Rattle.source_ways.specs.Operators as spec;

use aen_base::{BinOp, Boxed, CmpOp, IntTy, NoMem, Span};
use rust_ast::Ident;
use rust_ast::source::{Expr, ExprNode};
use source_grammar::{Class, Lexeme};
use source_ways::front_list::FrontList;
use source_ways::operations::{Borrowed, Join, Operation};
use source_ways::says::int_type_in;
use source_ways::spanned::Spanned;
use source_ways::spans::{from_to, same_span, span_of};
use std::alloc::Global;

/// What the mark of an operator asks for; what is none of these is `=`.
fn join_of(operator: Class) -> Join
    ensures { result ≡ spec.join_of operator }
{
    match operator {
        Class::BarBar => Join::Either,
        Class::AndAnd => Join::Both,
        Class::EqualsEquals => Join::Compare(CmpOp::Eq),
        Class::NotEquals => Join::Compare(CmpOp::Ne),
        Class::Less => Join::Compare(CmpOp::Lt),
        Class::LessEquals => Join::Compare(CmpOp::Le),
        Class::Greater => Join::Compare(CmpOp::Gt),
        Class::GreaterEquals => Join::Compare(CmpOp::Ge),
        Class::Bar => Join::Binary(BinOp::Or),
        Class::Caret => Join::Binary(BinOp::Xor),
        Class::And => Join::Binary(BinOp::And),
        Class::Shl => Join::Binary(BinOp::Shl),
        Class::Shr => Join::Binary(BinOp::Shr),
        Class::Plus => Join::Binary(BinOp::Add),
        Class::Minus => Join::Binary(BinOp::Sub),
        Class::Star => Join::Binary(BinOp::Mul),
        Class::Slash => Join::Binary(BinOp::Div),
        Class::Percent => Join::Binary(BinOp::Rem),
        Class::PlusEquals => Join::Update(BinOp::Add),
        Class::MinusEquals => Join::Update(BinOp::Sub),
        Class::StarEquals => Join::Update(BinOp::Mul),
        Class::SlashEquals => Join::Update(BinOp::Div),
        Class::PercentEquals => Join::Update(BinOp::Rem),
        Class::AndEquals => Join::Update(BinOp::And),
        Class::BarEquals => Join::Update(BinOp::Or),
        Class::CaretEquals => Join::Update(BinOp::Xor),
        Class::ShlEquals => Join::Update(BinOp::Shl),
        Class::ShrEquals => Join::Update(BinOp::Shr),
        _ => Join::Assign,
    }
}

fn joined_by(by: Join, span: Span, a: Boxed<Expr>, b: Boxed<Expr>) -> ExprNode
    ensures { expr_of result ≡ spec.joined_by by span a b }
{
    match by {
        Join::Either => ExprNode::Either(span, a, b),
        Join::Both => ExprNode::Both(span, a, b),
        Join::Compare(op) => ExprNode::Compare(span, op, a, b),
        Join::Binary(op) => ExprNode::Binary(span, op, a, b),
        Join::Update(op) => ExprNode::Update(span, op, a, b),
        Join::Assign => ExprNode::Assign(span, a, b),
    }
}

fn joined(alloc: Global, operator: Class, span: Span, a: Expr, b: Expr) -> Result<Expr, NoMem>
    ensures { IfOk result (λ it. it ≡ spec.joined operator span a b) }
{
    let a = Boxed::new(alloc, a)?;
    let b = Boxed::new(alloc, b)?;
    Ok(Expr {
        node: joined_by(join_of(operator), span, a, b),
    })
}

/// From the left, all from byte `lo` on.
fn to_the_left(
    alloc: Global,
    lo: u32,
    first: Expr,
    operations: FrontList<Operation>,
) -> Result<Expr, NoMem>
    ensures { IfOk result (λ it. it ≡ spec.to_the_left lo first operations) }
{
    let mut rest = operations;
    let mut e = first;
    while let Some(operation) = rest.pop() {
        let span = from_to(lo, operation.hi);
        e = joined(alloc, operation.operator, span, e, operation.right)?;
    }
    Ok(e)
}

/// An expression and the operators of one level after it. The only error is want of memory.
pub fn grouped(
    alloc: Global,
    whole: Span,
    e: Spanned<Expr>,
    more: Spanned<FrontList<Operation>>,
) -> Result<Expr, NoMem>
    ensures { IfOk result (λ it. it ≡ spec.grouped whole e more) }
{
    to_the_left(alloc, whole.lo, e.value, more.value)
}

fn operation(mark: Lexeme, e: Spanned<Expr>) -> Operation
    ensures { result ≡ spec.operation mark e }
{
    Operation {
        operator: mark.class,
        right: e.value,
        hi: span_of(e.extent).hi,
    }
}

/// One operator with what stands to its right. The only error is want of memory.
pub fn one_operation(
    alloc: Global,
    whole: Span,
    mark: Lexeme,
    e: Spanned<Expr>,
) -> Result<FrontList<Operation>, NoMem>
    ensures { IfOk result (λ it. it ≡ spec.one_operation whole mark e) }
{
    FrontList::new(alloc).push(operation(mark, e))
}

/// An operator with what stands to its right, and those after it. The only error is want of memory.
pub fn next_operation(
    whole: Span,
    mark: Lexeme,
    e: Spanned<Expr>,
    more: Spanned<FrontList<Operation>>,
) -> Result<FrontList<Operation>, NoMem>
    ensures { IfOk result (λ it. it ≡ spec.next_operation whole mark e more) }
{
    more.value.push(operation(mark, e))
}

fn cast_to(
    alloc: Global,
    lo: u32,
    first: Expr,
    casts: FrontList<(Span, IntTy)>,
) -> Result<Expr, NoMem>
    ensures { IfOk result (λ it. it ≡ spec.cast_to lo first casts) }
{
    let mut rest = casts;
    let mut e = first;
    while let Some(cast) = rest.pop() {
        let (span, ty) = cast;
        let inner = Boxed::new(alloc, e)?;
        e = Expr {
            node: ExprNode::Cast(from_to(lo, span.hi), inner, ty),
        };
    }
    Ok(e)
}

/// An expression and the types that it is cast to. The only error is want of memory.
pub fn casts(
    alloc: Global,
    whole: Span,
    e: Spanned<Expr>,
    more: Spanned<FrontList<(Span, IntTy)>>,
) -> Result<Expr, NoMem>
    ensures { IfOk result (λ it. it ≡ spec.casts whole e more) }
{
    cast_to(alloc, whole.lo, e.value, more.value)
}

/// A type after `as`, and those after it. The only error is want of memory.
pub fn one_cast(
    whole: Span,
    word: Lexeme,
    ty: Lexeme,
    more: Spanned<FrontList<(Span, IntTy)>>,
) -> Result<FrontList<(Span, IntTy)>, NoMem>
    ensures { IfOk result (λ it. it ≡ spec.one_cast whole word ty more) }
{
    let span = ty.span;
    more.value.push((span, int_type_in(ty.content)))
}

fn fields_of(alloc: Global, lo: u32, first: Expr, fields: FrontList<Ident>) -> Result<Expr, NoMem>
    ensures { IfOk result (λ it. it ≡ spec.fields_of lo first fields) }
{
    let mut rest = fields;
    let mut e = first;
    while let Some(field) = rest.pop() {
        let span = field.span;
        let inner = Boxed::new(alloc, e)?;
        e = Expr {
            node: ExprNode::Field(from_to(lo, span.hi), inner, span, field.name),
        };
    }
    Ok(e)
}

/// An expression and its fields. The only error is want of memory.
pub fn with_fields(
    alloc: Global,
    whole: Span,
    e: Spanned<Expr>,
    more: Spanned<FrontList<Ident>>,
) -> Result<Expr, NoMem>
    ensures { IfOk result (λ it. it ≡ spec.with_fields whole e more) }
{
    fields_of(alloc, whole.lo, e.value, more.value)
}

/// A node with `-`.
fn minus_of(alloc: Global, whole: Span, e: Expr) -> Result<Expr, NoMem>
    ensures { IfOk result (λ it. it ≡ s.minus whole e) }
{
    let e = Boxed::new(alloc, e)?;
    Ok(Expr {
        node: ExprNode::Minus(whole, e),
    })
}

/// `-` directly before an integer is one literal: the operand is that token alone, which its extent shows.
fn negated(alloc: Global, whole: Span, operand: Span, e: Expr) -> Result<Expr, NoMem>
    ensures { IfOk result (λ it. it ≡ spec.negated whole operand e) }
{
    match e.into_node() {
        ExprNode::Number(span, false, size, suffix) => {
            if same_span(span, operand) {
                return Ok(Expr {
                    node: ExprNode::Number(whole, true, size, suffix),
                });
            }
            let number = Expr {
                node: ExprNode::Number(span, false, size, suffix),
            };
            minus_of(alloc, whole, number)
        }
        node => minus_of(alloc, whole, Expr { node }),
    }
}

/// `-` and its operand. The only error is want of memory.
pub fn minus(alloc: Global, whole: Span, mark: Lexeme, e: Spanned<Expr>) -> Result<Expr, NoMem>
    ensures { IfOk result (λ it. it ≡ spec.minus whole mark e) }
{
    negated(alloc, whole, span_of(e.extent), e.value)
}

/// `!` and its operand. The only error is want of memory.
pub fn negation(alloc: Global, whole: Span, mark: Lexeme, e: Spanned<Expr>) -> Result<Expr, NoMem>
    ensures { IfOk result (λ it. it ≡ spec.negation whole mark e) }
{
    let e = Boxed::new(alloc, e.value)?;
    Ok(Expr {
        node: ExprNode::Negation(whole, e),
    })
}

/// `*` and its operand. The only error is want of memory.
pub fn dereference(
    alloc: Global,
    whole: Span,
    mark: Lexeme,
    e: Spanned<Expr>,
) -> Result<Expr, NoMem>
    ensures { IfOk result (λ it. it ≡ spec.dereference whole mark e) }
{
    let e = Boxed::new(alloc, e.value)?;
    Ok(Expr {
        node: ExprNode::Deref(whole, e),
    })
}

/// `&` and what stands after it. The only error is want of memory.
pub fn borrow(alloc: Global, whole: Span, mark: Lexeme, b: Spanned<Borrowed>) -> Result<Expr, NoMem>
    ensures { IfOk result (λ it. it ≡ spec.borrow whole mark b) }
{
    let Borrowed { mutable, operand } = b.value;
    let operand = Boxed::new(alloc, operand)?;
    Ok(Expr {
        node: ExprNode::Borrow(whole, mutable, operand),
    })
}

/// What stands after `&`, with `mut` where true.
pub fn borrowed(mutable: bool, e: Spanned<Expr>) -> Borrowed
    ensures { result ≡ spec.borrowed mutable e }
{
    Borrowed {
        mutable,
        operand: e.value,
    }
}
