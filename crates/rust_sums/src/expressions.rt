//! Expressions of type `u32`.

ghost use Rattle.std.specs.Prelude.{◌≡◌, [], length, slice_get};
ghost use Rattle.rust_ast.specs.Patterns as patterns;
ghost use Rattle.rust_ast.specs.Resolved.{exprs};
ghost use Rattle.rust_sums.specs.Gets.{Gets};
ghost use Rattle.rust_sums.specs.Sums as spec;

use crate::SumsFault;
use crate::types::is_u32_typed;
use aen_base::{BinOp, FnId, IntTy, List, Span, VarId, at, num};
use rust_ast::resolved::{Callee, CalleeNode, Expr as Resolved, ExprNode};
use rust_ast::written::{Turbos, TurbosNode};
use std::alloc::Global;
use sums_ast::{Expr, Function};

/// A literal of type `u32`. `Outside` exactly where it is none.
fn literal(
    span: Span,
    expected: bool,
    negative: bool,
    magnitude: u128,
    suffix: Option<IntTy>,
) -> Result<Expr, SumsFault>
    ensures { Gets (spec.literal span expected negative magnitude (patterns.suffix suffix)) result }
{
    if negative || !is_u32_typed(expected, suffix) {
        return Err(SumsFault::Outside);
    }
    match num(IntTy::U32, false, magnitude) {
        Some(number) => Ok(Expr::number(span, number)),
        None => Err(SumsFault::Outside),
    }
}

/// Whether an expression is a literal without a suffix.
fn is_unsuffixed(e: &Resolved) -> bool
    ensures { result ≡ spec.is_unsuffixed e.now }
{
    matches!(&e.node, ExprNode::Number(_, _, _, None))
}

/// The function that is called. `Outside` where no function is, or type arguments are written.
fn called(callee: &Callee, turbos: &Turbos) -> Result<u32, SumsFault>
    ensures { Gets (spec.called callee.now turbos.now) result }
{
    match (&callee.node, &turbos.node) {
        (CalleeNode::Function(function), TurbosNode::NoTurbo) => Ok(*function),
        _ => Err(SumsFault::Outside),
    }
}

/// Whether a function of these has so many parameters.
fn takes(earlier: &[Function], function: u32, count: usize) -> bool
    ensures { result ≡ spec.takes count (slice_get earlier.now function) }
{
    match at(earlier, function as usize) {
        None => false,
        Some(found) => found.parameters as usize == count,
    }
}

/// An expression of type `u32` after these functions, where so many variables are declared.
/// `Outside` exactly where it is none.
#[cycle(expression)]
pub(crate) fn expression(
    alloc: Global,
    earlier: &[Function],
    count: u32,
    expected: bool,
    e: &Resolved,
) -> Result<Expr, SumsFault>
    ensures { Gets (spec.expr earlier.now count expected e.now) result }
{
    match &e.node {
        ExprNode::Number(span, negative, magnitude, suffix) => {
            literal(*span, expected, *negative, *magnitude, *suffix)
        }
        ExprNode::Variable(span, variable) => {
            if *variable < count {
                Ok(Expr::variable(*span, VarId(*variable)))
            } else {
                Err(SumsFault::Outside)
            }
        }
        ExprNode::Binary(span, op, left, right) => {
            if *op != BinOp::Add {
                return Err(SumsFault::Outside);
            }
            let unsuffixed = is_unsuffixed(left.get());
            let a = expression(alloc, earlier, count, expected || unsuffixed, left.get())?;
            let b = expression(alloc, earlier, count, expected || !unsuffixed, right.get())?;
            Ok(Expr::binary(alloc, *span, BinOp::Add, a, b)?)
        }
        ExprNode::Call(span, callee, turbos, items) => {
            let function = called(callee, turbos)?;
            let parts = arguments(alloc, earlier, count, items.as_slice())?;
            if takes(earlier, function, parts.len()) {
                Ok(Expr::call(*span, FnId(function), parts))
            } else {
                Err(SumsFault::Outside)
            }
        }
        _ => Err(SumsFault::Outside),
    }
}

/// The arguments of a call. `Outside` exactly where one is no expression of type `u32`.
#[cycle(expression)]
fn arguments(
    alloc: Global,
    earlier: &[Function],
    count: u32,
    items: &[Resolved],
) -> Result<List<Expr>, SumsFault>
    ensures { Gets (spec.exprs earlier.now count [] (exprs items.now)) result }
{
    let mut parts = List::new(alloc);
    for item in items {
        let part = expression(alloc, earlier, count, true, item)?;
        parts.push(part)?;
    }
    Ok(parts)
}
