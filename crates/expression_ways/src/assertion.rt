//! How `assert!` is read.

ghost use Rattle.std.specs.Prelude.{◌≡◌, IfOk};
ghost use Rattle.rust_ast.specs.Source as tree;
ghost use Rattle.source_ways.specs.Blocks as spec;

use crate::blocks::{inner, no_block, only_value};
use aen_base::{Boxed, NoMem, Span};
use rust_ast::source::{Expr, ExprNode};
use std::alloc::Global;

/// `assert!(e)` is `if e {} else { panic!() }`. The only error is want of memory.
pub(crate) fn asserted(alloc: Global, whole: Span, condition: Expr) -> Result<Expr, NoMem>
    ensures { IfOk result (λ it. it ≡ spec.asserted whole condition) }
{
    let condition = Boxed::new(alloc, condition)?;
    let body = Boxed::new(alloc, no_block(alloc, whole)?)?;
    let otherwise = Boxed::new(alloc, panicking(alloc, whole)?)?;
    Ok(Expr {
        node: ExprNode::Branch(whole, condition, body, otherwise),
    })
}

/// `{ panic!() }`.
fn panicking(alloc: Global, whole: Span) -> Result<Expr, NoMem>
    ensures { IfOk result (λ it. it ≡ tree.inner (spec.only_value whole (tree.panic whole))) }
{
    let panic = Expr {
        node: ExprNode::Panic(whole),
    };
    inner(alloc, only_value(alloc, whole, panic)?)
}
