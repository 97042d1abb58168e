ghost use Rattle.std.specs.Prelude.{◌≡◌, List, IfOk};
ghost use Rattle.aen_base.specs.Numbers.{Number};
ghost use Rattle.sums_ast.specs.Tree.{nodes_expr};
ghost use Rattle.pointer_machine.specs.Spine as spec;

use aen_base::{BinOp, FnId, List, NoMem, Num, Span, VarId};
use std::alloc::Global;
use sums_ast::{Expr, ExprNode};

/// What stands first in an expression, each kind with its span.
#[derive(Clone, Copy)]
pub(crate) enum First<'a> {
    /// A number.
    Number(Num),
    /// A variable.
    Variable(Span, VarId),
    /// A call with its arguments.
    Call(Span, FnId, &'a [Expr]),
}

/// An operator and its right side, with the span of both sides.
#[derive(Clone, Copy)]
pub(crate) struct Right<'a> {
    pub(crate) span: Span,
    pub(crate) op: BinOp,
    pub(crate) side: &'a Expr,
}

/// An expression along its left sides: what stands first, and the operators with their right
/// sides, the outermost first.
#[derive(Drop)]
pub(crate) struct Spine<'a> {
    pub(crate) first: First<'a>,
    pub(crate) rights: List<Right<'a>>,
}

/// Walks down the left sides of an expression. The only error is want of memory.
pub(crate) fn along_left<'a>(alloc: Global, expr: &'a Expr) -> Result<Spine<'a>, NoMem>
    ensures whole { IfOk result (λ s. (c : spec.Call) (vars : List Number) → spec.spine_value c vars s ≡ spec.value c vars expr.now) }
    ensures smaller { IfOk result (λ s. spec.IsBelow (nodes_expr expr.now) s) }
{
    let mut rights = List::new(alloc);
    let mut left = expr;
    loop {
        match &left.node {
            ExprNode::Number(_, number) => {
                let first = First::Number(*number);
                return Ok(Spine { first, rights });
            }
            ExprNode::Variable(span, variable) => {
                let first = First::Variable(*span, *variable);
                return Ok(Spine { first, rights });
            }
            ExprNode::Call(span, function, arguments) => {
                let first = First::Call(*span, *function, arguments.as_slice());
                return Ok(Spine { first, rights });
            }
            ExprNode::Binary(span, op, a, b) => {
                rights.push(Right {
                    span: *span,
                    op: *op,
                    side: b.get(),
                })?;
                left = a.get();
            }
        }
    }
}
