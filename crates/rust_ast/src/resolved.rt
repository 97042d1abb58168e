// Made by tools/code.py from tools/rust_ast.desc.py.
use crate::patterns::Pat;
use crate::written::{Turbos, Written};
use aen_base::{BinOp, Boxed, Builtin, CmpOp, IntTy, List, Name, Span, TypeId};
use std::marker::Model;

/// What is called.
pub struct Callee {
    pub node: CalleeNode,
}

impl Drop for Callee {
    fn drop(self) {
        let Callee { node: _ } = self;
    }
}

/// The forms of `Callee`.
#[derive(Drop)]
pub enum CalleeNode {
    /// A function, by its number.
    Function(u32),
    /// A built-in function.
    BuiltinOf(Builtin),
    /// The constructor of a declared type's variant; of a struct the variant 0.
    Constructor(TypeId, u32),
}

/// An expression. Each form begins with its span; that of a block is the block's.
#[cycle(resolved)]
pub struct Expr {
    pub node: ExprNode,
}

impl Drop for Expr {
    #[cycle(dropping_resolved)]
    fn drop(self) {
        let Expr { node } = self;
        match node {
            ExprNode::Number(_, _, _, _) => {}
            ExprNode::Truth(_, _) => {}
            ExprNode::Tuple(_, _tuple) => {}
            ExprNode::Inner(_) => {}
            ExprNode::Branch(_, _, _, _) => {}
            ExprNode::Select(_, _, _select) => {}
            ExprNode::Forever(_, _, _, _) => {}
            ExprNode::Panic(_) => {}
            ExprNode::Variable(_, _) => {}
            ExprNode::Call(_, _, _, _call) => {}
            ExprNode::Literal(_, _, _, _, _literal) => {}
            ExprNode::Field(_, _, _, _) => {}
            ExprNode::Minus(_, _) => {}
            ExprNode::Negation(_, _) => {}
            ExprNode::Deref(_, _) => {}
            ExprNode::Borrow(_, _, _) => {}
            ExprNode::Binary(_, _, _, _) => {}
            ExprNode::Compare(_, _, _, _) => {}
            ExprNode::Both(_, _, _) => {}
            ExprNode::Either(_, _, _) => {}
            ExprNode::Cast(_, _, _) => {}
            ExprNode::Assign(_, _, _) => {}
            ExprNode::Update(_, _, _, _) => {}
            ExprNode::Give(_, _) => {}
            ExprNode::Leave(_, _) => {}
            ExprNode::GoOn(_) => {}
        }
    }
}

/// The forms of `Expr`.
#[cycle(resolved)]
#[derive(Drop)]
pub enum ExprNode {
    /// An integer: whether it is negative, its magnitude, its suffix.
    Number(Span, bool, u128, Option<IntTy>),
    /// `true` or `false`.
    Truth(Span, bool),
    /// A tuple of these parts, or `()`.
    Tuple(Span, List<Expr>),
    /// A block.
    Inner(Boxed<Block>),
    /// `if`: the condition, what is done where it holds, and where not.
    Branch(Span, Boxed<Expr>, Boxed<Block>, Boxed<Expr>),
    /// `match`: the scrutinee, and the arms in order.
    Select(Span, Boxed<Expr>, List<(Pat, Expr)>),
    /// A loop: its number in the function, whether it is written with `while`, and its body.
    Forever(Span, u32, bool, Boxed<Block>),
    /// `panic!`.
    Panic(Span),
    /// A variable, by its number.
    Variable(Span, u32),
    /// A call of a function, or of a constructor whose parts stand by place.
    Call(Span, Callee, Turbos, List<Expr>),
    /// A constructor whose parts stand by name in braces: each name with its span, and its value.
    Literal(Span, TypeId, u32, Turbos, List<(Span, Name, Expr)>),
    /// A field: its span, and its name or place.
    Field(Span, Boxed<Expr>, Span, Name),
    /// `-`.
    Minus(Span, Boxed<Expr>),
    /// `!`.
    Negation(Span, Boxed<Expr>),
    /// `*`.
    Deref(Span, Boxed<Expr>),
    /// `&`, or `&mut` where true.
    Borrow(Span, bool, Boxed<Expr>),
    /// An operator on two numbers.
    Binary(Span, BinOp, Boxed<Expr>, Boxed<Expr>),
    /// A comparison.
    Compare(Span, CmpOp, Boxed<Expr>, Boxed<Expr>),
    /// `&&`.
    Both(Span, Boxed<Expr>, Boxed<Expr>),
    /// `||`.
    Either(Span, Boxed<Expr>, Boxed<Expr>),
    /// `as`.
    Cast(Span, Boxed<Expr>, IntTy),
    /// `=`.
    Assign(Span, Boxed<Expr>, Boxed<Expr>),
    /// An operator with `=`.
    Update(Span, BinOp, Boxed<Expr>, Boxed<Expr>),
    /// `return`.
    Give(Span, Option<Boxed<Expr>>),
    /// `break`.
    Leave(Span, Option<Boxed<Expr>>),
    /// `continue`.
    GoOn(Span),
}

/// A statement.
#[cycle(resolved)]
pub struct Stmt {
    pub node: StmtNode,
}

impl Drop for Stmt {
    #[cycle(dropping_resolved)]
    fn drop(self) {
        let Stmt { node: _ } = self;
    }
}

/// The forms of `Stmt`.
#[cycle(resolved)]
#[derive(Drop)]
pub enum StmtNode {
    /// An expression, and whether `;` ends it.
    Run(Boxed<Expr>, bool),
    /// `let`, with its span: the pattern, the type if one is written, the value if there is one.
    Bind(Span, Pat, Option<Written>, Option<Boxed<Expr>>),
}

/// A block.
#[cycle(resolved)]
pub struct Block {
    pub node: BlockNode,
}

impl Drop for Block {
    #[cycle(dropping_resolved)]
    fn drop(self) {
        let Block { node } = self;
        match node {
            BlockNode::Block(_, _block, _) => {}
        }
    }
}

/// The forms of `Block`.
#[cycle(resolved)]
#[derive(Drop)]
pub enum BlockNode {
    /// The span, the statements, and the last expression, which gives the value.
    Block(Span, List<Stmt>, Option<Boxed<Expr>>),
}

impl Model for Callee {
    ghost use Rattle.rust_ast.specs.Resolved.{Callee, coded_callee};

    ghost Value = { Callee };

    ghost coded = { coded_callee };

    ghost use Rattle.rust_ast.specs.ResolvedView.{callee_of};

    ghost view = { λ e. callee_of e.node };
}

impl Callee {
    ghost use Rattle.std.specs.Prelude.{◌≡◌};
    ghost use Rattle.rust_ast.specs.ResolvedView.{callee_of};

    /// The form, taken out.
    pub fn into_node(self) -> CalleeNode
        ensures { callee_of result ≡ self }
    {
        let Callee { node } = self;
        node
    }
}

impl Model for Expr {
    ghost use Rattle.rust_ast.specs.Resolved.{Expr, coded_expr, nodes_expr};

    ghost Value = { Expr };

    ghost coded = { coded_expr };

    ghost use Rattle.rust_ast.specs.ResolvedView.{expr_of};

    ghost view = { λ e. expr_of e.node };

    ghost size = { nodes_expr };

    ghost use Rattle.std.proofs.Common.{arith};
    ghost use Rattle.rust_ast.specs.ResolvedFalls.{expr_falls};

    ghost size_decreases = { λ a h. Prim.omega (arith, expr_falls a.node) };
}

impl Expr {
    ghost use Rattle.std.specs.Prelude.{◌≡◌};
    ghost use Rattle.rust_ast.specs.ResolvedView.{expr_of};

    /// The form, taken out.
    pub fn into_node(self) -> ExprNode
        ensures { expr_of result ≡ self }
    {
        let Expr { node } = self;
        node
    }
}

impl Model for Stmt {
    ghost use Rattle.rust_ast.specs.Resolved.{Stmt, coded_stmt, nodes_stmt};

    ghost Value = { Stmt };

    ghost coded = { coded_stmt };

    ghost use Rattle.rust_ast.specs.ResolvedView.{stmt_of};

    ghost view = { λ e. stmt_of e.node };

    ghost size = { nodes_stmt };

    ghost use Rattle.std.proofs.Common.{arith};
    ghost use Rattle.rust_ast.specs.ResolvedFalls.{stmt_falls};

    ghost size_decreases = { λ a h. Prim.omega (arith, stmt_falls a.node) };
}

impl Stmt {
    ghost use Rattle.std.specs.Prelude.{◌≡◌};
    ghost use Rattle.rust_ast.specs.ResolvedView.{stmt_of};

    /// The form, taken out.
    pub fn into_node(self) -> StmtNode
        ensures { stmt_of result ≡ self }
    {
        let Stmt { node } = self;
        node
    }
}

impl Model for Block {
    ghost use Rattle.rust_ast.specs.Resolved.{Block, coded_block, nodes_block};

    ghost Value = { Block };

    ghost coded = { coded_block };

    ghost use Rattle.rust_ast.specs.ResolvedView.{block_of};

    ghost view = { λ e. block_of e.node };

    ghost size = { nodes_block };

    ghost use Rattle.std.proofs.Common.{arith};
    ghost use Rattle.rust_ast.specs.ResolvedFalls.{block_falls};

    ghost size_decreases = { λ a h. Prim.omega (arith, block_falls a.node) };
}

impl Block {
    ghost use Rattle.std.specs.Prelude.{◌≡◌};
    ghost use Rattle.rust_ast.specs.ResolvedView.{block_of};

    /// The form, taken out.
    pub fn into_node(self) -> BlockNode
        ensures { block_of result ≡ self }
    {
        let Block { node } = self;
        node
    }
}
