//! Where the parts of a program stand, and how they are written.
ghost use Rattle.std.specs.Prelude.{◌≡◌};
ghost use Rattle.type_rules.specs.Bodies as spec;
ghost use Rattle.type_rules.specs.Patterns as patterns;

use aen_base::Span;
use rust_ast::patterns::{Pat, PatNode};
use rust_ast::resolved::{Block, BlockNode, Expr, ExprNode};

/// Where a block stands.
fn block_span(block: &Block) -> Span
    ensures { result ≡ spec.block_span block.now }
{
    match &block.node {
        BlockNode::Block(span, _, _) => *span,
    }
}

/// Where an expression stands.
pub fn span_of(expr: &Expr) -> Span
    ensures { result ≡ spec.span_of expr.now }
{
    match &expr.node {
        ExprNode::Number(span, _, _, _) => *span,
        ExprNode::Truth(span, _) => *span,
        ExprNode::Tuple(span, _) => *span,
        ExprNode::Inner(block) => block_span(block.get()),
        ExprNode::Branch(span, _, _, _) => *span,
        ExprNode::Select(span, _, _) => *span,
        ExprNode::Forever(span, _, _, _) => *span,
        ExprNode::Panic(span) => *span,
        ExprNode::Variable(span, _) => *span,
        ExprNode::Call(span, _, _, _) => *span,
        ExprNode::Literal(span, _, _, _, _) => *span,
        ExprNode::Field(span, _, _, _) => *span,
        ExprNode::Minus(span, _) => *span,
        ExprNode::Negation(span, _) => *span,
        ExprNode::Deref(span, _) => *span,
        ExprNode::Borrow(span, _, _) => *span,
        ExprNode::Binary(span, _, _, _) => *span,
        ExprNode::Compare(span, _, _, _) => *span,
        ExprNode::Both(span, _, _) => *span,
        ExprNode::Either(span, _, _) => *span,
        ExprNode::Cast(span, _, _) => *span,
        ExprNode::Assign(span, _, _) => *span,
        ExprNode::Update(span, _, _, _) => *span,
        ExprNode::Give(span, _) => *span,
        ExprNode::Leave(span, _) => *span,
        ExprNode::GoOn(span) => *span,
    }
}

/// Whether it is a literal without a suffix.
pub fn is_unsuffixed(expr: &Expr) -> bool
    ensures { result ≡ spec.is_unsuffixed expr.now }
{
    match &expr.node {
        ExprNode::Number(_, _, _, suffix) => suffix.is_none(),
        _ => false,
    }
}

/// Where a pattern stands.
pub fn pattern_span(pat: &Pat) -> Span
    ensures { result ≡ patterns.pattern_span pat.now }
{
    match &pat.node {
        PatNode::Wild(span) => *span,
        PatNode::Bind(span, _, _, _) => *span,
        PatNode::Number(span, _, _, _) => *span,
        PatNode::Truth(span, _) => *span,
        PatNode::Tuple(span, _) => *span,
        PatNode::Construct(span, _, _, _, _) => *span,
        PatNode::Literal(span, _, _, _, _) => *span,
    }
}

/// Whether it is `x`, `mut x` or `_`.
pub fn is_simple(pat: &Pat) -> bool
    ensures { result ≡ patterns.is_simple pat.now }
{
    match &pat.node {
        PatNode::Wild(_) => true,
        PatNode::Bind(_, _, _, _) => true,
        _ => false,
    }
}
