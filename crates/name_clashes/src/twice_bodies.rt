//! What is declared twice in one pattern of a body.

ghost use Rattle.std.specs.Prelude.{◌≡◌, IfOk};
ghost use Rattle.rust_ast.specs.Source as source;
ghost use Rattle.name_tables.specs.Finding as finding;
ghost use Rattle.name_clashes.specs.Twice as spec;

use crate::bindings::twice_in_pattern;
use crate::repeated::first;
use aen_base::{Boxed, Name, NoMem, Span};
use name_tables::Tables;
use rust_ast::source::{Block, BlockNode, Expr, ExprNode, Stmt, StmtNode};
use rust_ast::source_patterns::Pat;
use std::alloc::Global;

/// The first in an expression. The only error is want of memory.
#[cycle(bodies)]
fn twice_in(alloc: Global, tables: &Tables, e: &Expr) -> Result<Option<(Span, Span)>, NoMem>
    ensures { IfOk result (λ p. p ≡ spec.twice_in tables.now.values e.now) }
{
    match &e.node {
        ExprNode::Number(_, _, _, _) => Ok(None),
        ExprNode::Truth(_, _) => Ok(None),
        ExprNode::Tuple(_, parts) => Ok(twice_in_all(alloc, tables, parts.as_slice())?),
        ExprNode::Inner(block) => Ok(twice_in_block(alloc, tables, block.get())?),
        ExprNode::Branch(_, a, b, c) => {
            let condition = twice_in(alloc, tables, a.get())?;
            let yes = twice_in_block(alloc, tables, b.get())?;
            let no = twice_in(alloc, tables, c.get())?;
            Ok(first(condition, first(yes, no)))
        }
        ExprNode::Select(_, a, arms) => {
            let scrutinee = twice_in(alloc, tables, a.get())?;
            let arms = twice_in_arms(alloc, tables, arms.as_slice())?;
            Ok(first(scrutinee, arms))
        }
        ExprNode::LetBranch(_, pat, a, b, c) => {
            let pattern = twice_in_pattern(alloc, tables, pat)?;
            let scrutinee = twice_in(alloc, tables, a.get())?;
            let yes = twice_in(alloc, tables, b.get())?;
            let no = twice_in(alloc, tables, c.get())?;
            Ok(first(pattern, first(scrutinee, first(yes, no))))
        }
        ExprNode::Forever(_, _, body) => Ok(twice_in_block(alloc, tables, body.get())?),
        ExprNode::Panic(_) => Ok(None),
        ExprNode::Path(_, _) => Ok(None),
        ExprNode::Call(_, _, _, parts) => Ok(twice_in_all(alloc, tables, parts.as_slice())?),
        ExprNode::Literal(_, _, _, values) => {
            Ok(twice_in_inits(alloc, tables, values.as_slice())?)
        }
        ExprNode::Field(_, a, _, _) => Ok(twice_in(alloc, tables, a.get())?),
        ExprNode::Minus(_, a) => Ok(twice_in(alloc, tables, a.get())?),
        ExprNode::Negation(_, a) => Ok(twice_in(alloc, tables, a.get())?),
        ExprNode::Deref(_, a) => Ok(twice_in(alloc, tables, a.get())?),
        ExprNode::Borrow(_, _, a) => Ok(twice_in(alloc, tables, a.get())?),
        ExprNode::Binary(_, _, a, b) => Ok(twice_in_two(alloc, tables, a.get(), b.get())?),
        ExprNode::Compare(_, _, a, b) => Ok(twice_in_two(alloc, tables, a.get(), b.get())?),
        ExprNode::Both(_, a, b) => Ok(twice_in_two(alloc, tables, a.get(), b.get())?),
        ExprNode::Either(_, a, b) => Ok(twice_in_two(alloc, tables, a.get(), b.get())?),
        ExprNode::Cast(_, a, _) => Ok(twice_in(alloc, tables, a.get())?),
        ExprNode::Assign(_, a, b) => Ok(twice_in_two(alloc, tables, a.get(), b.get())?),
        ExprNode::Update(_, _, a, b) => Ok(twice_in_two(alloc, tables, a.get(), b.get())?),
        ExprNode::Give(_, value) => Ok(twice_in_maybe(alloc, tables, value)?),
        ExprNode::Leave(_, value) => Ok(twice_in_maybe(alloc, tables, value)?),
        ExprNode::GoOn(_) => Ok(None),
    }
}

/// The first in two expressions, from left to right.
#[cycle(bodies)]
fn twice_in_two(
    alloc: Global,
    tables: &Tables,
    a: &Expr,
    b: &Expr,
) -> Result<Option<(Span, Span)>, NoMem>
    ensures { IfOk result (λ p. p ≡ finding.or_else (spec.twice_in tables.now.values a.now) (spec.twice_in tables.now.values b.now)) }
{
    let left = twice_in(alloc, tables, a)?;
    let right = twice_in(alloc, tables, b)?;
    Ok(first(left, right))
}

/// The first in an expression, if there is one.
#[cycle(bodies)]
fn twice_in_maybe(
    alloc: Global,
    tables: &Tables,
    e: &Option<Boxed<Expr>>,
) -> Result<Option<(Span, Span)>, NoMem>
    ensures { IfOk result (λ p. p ≡ spec.twice_in_maybe tables.now.values (source.maybeexpr e.now)) }
{
    match e {
        None => Ok(None),
        Some(e) => Ok(twice_in(alloc, tables, e.get())?),
    }
}

/// The first in expressions, from left to right.
#[cycle(bodies)]
fn twice_in_all(
    alloc: Global,
    tables: &Tables,
    items: &[Expr],
) -> Result<Option<(Span, Span)>, NoMem>
    ensures { IfOk result (λ p. p ≡ spec.twice_in_all tables.now.values (source.exprs items.now)) }
{
    let mut found = None;
    for i in 0..items.len() {
        let next = twice_in(alloc, tables, &items[i])?;
        let more = first(found, next);
        found = more;
    }
    Ok(found)
}

/// The first in the value of a field.
#[cycle(bodies)]
fn twice_in_init(
    alloc: Global,
    tables: &Tables,
    item: &(Span, Name, Expr),
) -> Result<Option<(Span, Span)>, NoMem>
    ensures { IfOk result (λ p. p ≡ spec.twice_in tables.now.values item.now.2) }
{
    Ok(twice_in(alloc, tables, &item.2)?)
}

/// The first in the values of fields, in written order.
#[cycle(bodies)]
fn twice_in_inits(
    alloc: Global,
    tables: &Tables,
    items: &[(Span, Name, Expr)],
) -> Result<Option<(Span, Span)>, NoMem>
    ensures { IfOk result (λ p. p ≡ spec.twice_in_inits tables.now.values (source.inits items.now)) }
{
    let mut found = None;
    for i in 0..items.len() {
        let next = twice_in_init(alloc, tables, &items[i])?;
        let more = first(found, next);
        found = more;
    }
    Ok(found)
}

/// The first in an arm: in its pattern, then in its body.
#[cycle(bodies)]
fn twice_in_arm(
    alloc: Global,
    tables: &Tables,
    arm: &(Pat, Expr),
) -> Result<Option<(Span, Span)>, NoMem>
    ensures { IfOk result (λ p. p ≡ finding.or_else (spec.twice_in_pattern tables.now.values arm.now.0) (spec.twice_in tables.now.values arm.now.1)) }
{
    let pattern = twice_in_pattern(alloc, tables, &arm.0)?;
    let body = twice_in(alloc, tables, &arm.1)?;
    Ok(first(pattern, body))
}

/// The first in arms, in order.
#[cycle(bodies)]
fn twice_in_arms(
    alloc: Global,
    tables: &Tables,
    items: &[(Pat, Expr)],
) -> Result<Option<(Span, Span)>, NoMem>
    ensures { IfOk result (λ p. p ≡ spec.twice_in_arms tables.now.values (source.arms items.now)) }
{
    let mut found = None;
    for i in 0..items.len() {
        let next = twice_in_arm(alloc, tables, &items[i])?;
        let more = first(found, next);
        found = more;
    }
    Ok(found)
}

/// The first in a block. The only error is want of memory.
#[cycle(bodies)]
pub(crate) fn twice_in_block(
    alloc: Global,
    tables: &Tables,
    block: &Block,
) -> Result<Option<(Span, Span)>, NoMem>
    ensures { IfOk result (λ p. p ≡ spec.twice_in_block tables.now.values block.now) }
{
    match &block.node {
        BlockNode::Block(_, statements, last) => {
            let statements = twice_in_stmts(alloc, tables, statements.as_slice())?;
            let last = twice_in_maybe(alloc, tables, last)?;
            Ok(first(statements, last))
        }
    }
}

/// The first in statements, in order.
#[cycle(bodies)]
fn twice_in_stmts(
    alloc: Global,
    tables: &Tables,
    items: &[Stmt],
) -> Result<Option<(Span, Span)>, NoMem>
    ensures { IfOk result (λ p. p ≡ spec.twice_in_stmts tables.now.values (source.stmts items.now)) }
{
    let mut found = None;
    for i in 0..items.len() {
        let next = twice_in_stmt(alloc, tables, &items[i])?;
        let more = first(found, next);
        found = more;
    }
    Ok(found)
}

/// The first in a statement.
#[cycle(bodies)]
fn twice_in_stmt(alloc: Global, tables: &Tables, stmt: &Stmt) -> Result<Option<(Span, Span)>, NoMem>
    ensures { IfOk result (λ p. p ≡ spec.twice_in_stmt tables.now.values stmt.now) }
{
    match &stmt.node {
        StmtNode::Run(e, _) => Ok(twice_in(alloc, tables, e.get())?),
        StmtNode::Bind(_, pat, _, value) => {
            let pattern = twice_in_pattern(alloc, tables, pat)?;
            let value = twice_in_maybe(alloc, tables, value)?;
            Ok(first(pattern, value))
        }
    }
}
