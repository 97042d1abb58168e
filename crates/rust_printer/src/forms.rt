//! What an expression is read as without brackets around it.
ghost use Rattle.std.specs.Prelude.{◌≡◌};
ghost use Rattle.rust_printer.specs.Forms as spec;

use rust_ast::source::{Expr, ExprNode};

/// Whether it is an operand of every operator.
pub(crate) fn is_operand(expr: &Expr) -> bool
    ensures { result ≡ spec.is_operand expr.now }
{
    match &expr.node {
        ExprNode::Number(_, _, _, _)
        | ExprNode::Truth(_, _)
        | ExprNode::Tuple(_, _)
        | ExprNode::Panic(_)
        | ExprNode::Path(_, _)
        | ExprNode::Call(_, _, _, _)
        | ExprNode::Literal(_, _, _, _)
        | ExprNode::Field(_, _, _, _)
        | ExprNode::Minus(_, _)
        | ExprNode::Negation(_, _)
        | ExprNode::Deref(_, _)
        | ExprNode::Borrow(_, _, _) => true,
        _ => false,
    }
}

/// Whether it is an operand after which fields may stand.
pub(crate) fn is_core(expr: &Expr) -> bool
    ensures { result ≡ spec.is_core expr.now }
{
    match &expr.node {
        ExprNode::Number(_, negative, _, _) => !*negative,
        ExprNode::Truth(_, _)
        | ExprNode::Tuple(_, _)
        | ExprNode::Panic(_)
        | ExprNode::Path(_, _)
        | ExprNode::Call(_, _, _, _)
        | ExprNode::Literal(_, _, _, _) => true,
        _ => false,
    }
}

/// Whether it may begin a statement: an operand, or what ends at its last brace.
pub(crate) fn is_leading(expr: &Expr) -> bool
    ensures { result ≡ spec.is_leading expr.now }
{
    match &expr.node {
        ExprNode::Inner(_)
        | ExprNode::Branch(_, _, _, _)
        | ExprNode::Select(_, _, _)
        | ExprNode::LetBranch(_, _, _, _, _)
        | ExprNode::Forever(_, _, _) => true,
        ExprNode::Number(_, _, _, _)
        | ExprNode::Truth(_, _)
        | ExprNode::Tuple(_, _)
        | ExprNode::Panic(_)
        | ExprNode::Path(_, _)
        | ExprNode::Call(_, _, _, _)
        | ExprNode::Literal(_, _, _, _)
        | ExprNode::Field(_, _, _, _)
        | ExprNode::Minus(_, _)
        | ExprNode::Negation(_, _)
        | ExprNode::Deref(_, _)
        | ExprNode::Borrow(_, _, _) => true,
        _ => false,
    }
}
