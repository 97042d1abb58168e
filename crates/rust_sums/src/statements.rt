//! Statements and the bodies of functions.

ghost use Rattle.std.specs.Prelude.{◌≡◌, [], ◌<◌, ◌≤◌};
ghost use Rattle.rust_ast.specs.Resolved as resolved;
ghost use Rattle.rust_ast.specs.Written.{maybewritten};
ghost use Rattle.rust_sums.specs.Gets.{Gets};
ghost use Rattle.rust_sums.specs.Sums as spec;

use crate::SumsFault;
use crate::expressions::expression;
use crate::types::expected_by;
use aen_base::{Boxed, List, VarId};
use rust_ast::patterns::{Pat, PatNode};
use rust_ast::resolved::{self, BlockNode, StmtNode};
use rust_ast::written::Written;
use std::alloc::Global;
use sums_ast::{Block, Expr, Function, Stmt};

/// Whether a pattern binds the next variable.
fn is_next(count: u32, pattern: &Pat) -> bool
    ensures { result ≡ spec.is_next count pattern.now }
{
    match &pattern.node {
        PatNode::Bind(_, _, _, variable) => *variable == count,
        PatNode::Wild(_)
        | PatNode::Number(_, _, _, _)
        | PatNode::Truth(_, _)
        | PatNode::Tuple(_, _)
        | PatNode::Construct(_, _, _, _, _)
        | PatNode::Literal(_, _, _, _, _) => false,
    }
}

/// The value of a `let`. `Outside` where there is none of type `u32`.
fn value_of(
    alloc: Global,
    earlier: &[Function],
    count: u32,
    ty: &Option<Written>,
    value: &Option<Boxed<resolved::Expr>>,
) -> Result<Expr, SumsFault>
    ensures { Gets (spec.value_of earlier.now count (maybewritten ty.now) (resolved.maybeexpr value.now)) result }
{
    match value {
        None => Err(SumsFault::Outside),
        Some(e) => {
            let expected = expected_by(ty)?;
            expression(alloc, earlier, count, expected, e.get())
        }
    }
}

/// A `let` of the next of `total` variables. `Outside` exactly where the statement is none.
fn statement(
    alloc: Global,
    earlier: &[Function],
    count: u32,
    total: u32,
    stmt: &resolved::Stmt,
) -> Result<Stmt, SumsFault>
    ensures { Gets (spec.stmt earlier.now count total stmt.now) result }
{
    match &stmt.node {
        StmtNode::Run(_, _) => Err(SumsFault::Outside),
        StmtNode::Bind(span, pattern, ty, value) => {
            if !is_next(count, pattern) || count >= total {
                return Err(SumsFault::Outside);
            }
            let e = value_of(alloc, earlier, count, ty, value)?;
            Ok(Stmt::bind(alloc, *span, VarId(count), e)?)
        }
    }
}

/// Statements that declare all variables from `count` on. `Outside` exactly where they aren't such.
fn statements(
    alloc: Global,
    earlier: &[Function],
    count: u32,
    total: u32,
    stmts: &[resolved::Stmt],
) -> Result<List<Stmt>, SumsFault>
    ensures { Gets (spec.stmts earlier.now count total [] (resolved.stmts stmts.now)) result }
{
    let mut next = count;
    let mut done = List::new(alloc);
    for stmt in stmts {
        if next >= total {
            return Err(SumsFault::Outside);
        }
        let one = statement(alloc, earlier, next, total, stmt)?;
        done.push(one)?;
        next += 1;
    }
    if next == total {
        Ok(done)
    } else {
        Err(SumsFault::Outside)
    }
}

/// The value of a body. `Outside` exactly where there is none of type `u32`.
fn last(
    alloc: Global,
    earlier: &[Function],
    total: u32,
    value: &Option<Boxed<resolved::Expr>>,
) -> Result<Expr, SumsFault>
    ensures { Gets (spec.last earlier.now total (resolved.maybeexpr value.now)) result }
{
    match value {
        None => Err(SumsFault::Outside),
        Some(e) => expression(alloc, earlier, total, true, e.get()),
    }
}

/// The body of a function of which the first `count` of `total` variables are parameters. `Outside`
/// exactly where it is no body of sums.
pub(crate) fn body(
    alloc: Global,
    earlier: &[Function],
    count: u32,
    total: u32,
    block: &resolved::Block,
) -> Result<Block, SumsFault>
    ensures { Gets (spec.body earlier.now count total block.now) result }
{
    match &block.node {
        BlockNode::Block(span, stmts, value) => {
            let done = statements(alloc, earlier, count, total, stmts.as_slice())?;
            let value = last(alloc, earlier, total, value)?;
            Ok(Block::with_value(alloc, *span, done, value)?)
        }
    }
}
