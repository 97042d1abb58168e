ghost use Rattle.std.specs.Prelude.{◌≡◌, IfOk};
ghost use Rattle.sums_ast.specs.Tree as tree;

use aen_base::{BinOp, Boxed, FnId, List, NoMem, Num, Span, VarId};
use std::alloc::Global;
use std::marker::Model;

/// An expression, with its place in the source.
#[cycle(expression)]
pub struct Expr {
    /// The expression's kind and parts.
    pub node: ExprNode,
}

/// A long sum is a deep tree to the left, so the drop goes down that side in a loop.
impl Drop for Expr {
    fn drop(mut self) {
        loop {
            let Expr { node } = self;
            match node {
                ExprNode::Number(_, _) => return,
                ExprNode::Variable(_, _) => return,
                ExprNode::Call(_, _, _arguments) => return,
                ExprNode::Binary(_, _, left, _right) => self = left.into_inner(),
            }
        }
    }
}

/// What an expression is. Each kind begins with its span.
#[cycle(expression)]
#[derive(Drop)]
pub enum ExprNode {
    /// A literal, with its type.
    Number(Span, Num),
    /// The value of a variable.
    Variable(Span, VarId),
    /// An operator on two numbers; the left side runs first.
    Binary(Span, BinOp, Boxed<Expr>, Boxed<Expr>),
    /// A call of a function; the arguments run in written order.
    Call(Span, FnId, List<Expr>),
}

/// A statement, with its place in the source.
#[derive(Drop)]
pub struct Stmt {
    /// The statement's kind and parts.
    pub node: StmtNode,
}

/// What a statement is. Each kind begins with its span.
#[derive(Drop)]
pub enum StmtNode {
    /// `let` of a new variable with a value.
    Bind(Span, VarId, Boxed<Expr>),
}

/// A block of statements and the expression that gives its value.
#[derive(Drop)]
pub struct Block {
    /// The block's parts.
    pub node: BlockNode,
}

/// The parts of a block.
#[derive(Drop)]
pub struct BlockNode {
    /// From its opening to its closing brace.
    pub span: Span,
    /// The statements in order.
    pub statements: List<Stmt>,
    /// The last expression; without one the block's value is unit.
    pub last: Option<Boxed<Expr>>,
}

impl Model for Expr {
    ghost use Rattle.sums_ast.specs.Tree.{Expr, coded_expr, nodes_expr};

    ghost Value = { Expr };

    ghost coded = { coded_expr };

    ghost use Rattle.sums_ast.specs.View.{expr_of};

    ghost view = { λ e. expr_of e.node };

    ghost size = { nodes_expr };

    ghost use Rattle.std.proofs.Common.{arith};
    ghost use Rattle.sums_ast.specs.Falls.{expr_falls};

    ghost size_decreases = { λ a h. Prim.omega (arith, expr_falls a.node) };
}

impl Model for Stmt {
    ghost use Rattle.sums_ast.specs.Tree.{Stmt, coded_stmt};

    ghost Value = { Stmt };

    ghost coded = { coded_stmt };

    ghost use Rattle.sums_ast.specs.View.{stmt_of};

    ghost view = { λ s. stmt_of s.node };
}

impl Model for Block {
    ghost use Rattle.sums_ast.specs.Tree.{Block, coded_block};

    ghost Value = { Block };

    ghost coded = { coded_block };

    ghost use Rattle.sums_ast.specs.View.{block_of};

    ghost view = { λ b. block_of b.node };
}

impl Expr {
    /// A literal.
    pub fn number(span: Span, value: Num) -> Expr
        ensures { result ≡ tree.number span value }
    {
        Expr {
            node: ExprNode::Number(span, value),
        }
    }

    /// The value of a variable.
    pub fn variable(span: Span, variable: VarId) -> Expr
        ensures { result ≡ tree.variable span variable.0 }
    {
        Expr {
            node: ExprNode::Variable(span, variable),
        }
    }

    /// An operator on two expressions. The only error is want of memory.
    pub fn binary(
        alloc: Global,
        span: Span,
        op: BinOp,
        left: Expr,
        right: Expr,
    ) -> Result<Expr, NoMem>
        ensures { IfOk result (λ e. e ≡ tree.binary span op left right) }
    {
        Ok(Expr {
            node: ExprNode::Binary(
                span,
                op,
                Boxed::new(alloc, left)?,
                Boxed::new(alloc, right)?,
            ),
        })
    }

    /// A call.
    pub fn call(span: Span, function: FnId, arguments: List<Expr>) -> Expr
        ensures { result ≡ tree.call span function.0 (tree.exprs arguments) }
    {
        Expr {
            node: ExprNode::Call(span, function, arguments),
        }
    }
}

impl Stmt {
    /// `let` of a new variable. The only error is want of memory.
    pub fn bind(alloc: Global, span: Span, variable: VarId, value: Expr) -> Result<Stmt, NoMem>
        ensures { IfOk result (λ s. s ≡ tree.bind span variable.0 value) }
    {
        Ok(Stmt {
            node: StmtNode::Bind(span, variable, Boxed::new(alloc, value)?),
        })
    }
}

impl Block {
    /// A block with a last expression. The only error is want of memory.
    pub fn with_value(
        alloc: Global,
        span: Span,
        statements: List<Stmt>,
        last: Expr,
    ) -> Result<Block, NoMem>
        ensures { IfOk result (λ b. b ≡ tree.block span (tree.stmts statements) (tree.some_maybeexpr last)) }
    {
        Ok(Block {
            node: BlockNode {
                span,
                statements,
                last: Some(Boxed::new(alloc, last)?),
            },
        })
    }
}
