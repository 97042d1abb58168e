use aen_base::{BinOp, CmpOp};
use rust_ast::source::Expr;
use source_grammar::Class;

/// An operator and what stands to its right.
#[derive(Drop)]
pub struct Operation {
    pub operator: Class,
    pub right: Expr,
    /// Where that ends.
    pub hi: u32,
}

/// What stands after `&`: whether `mut` follows, and what is borrowed.
#[derive(Drop)]
pub struct Borrowed {
    pub mutable: bool,
    pub operand: Expr,
}

/// How an operator joins two operands.
#[derive(Clone, Copy)]
pub enum Join {
    /// `||`.
    Either,
    /// `&&`.
    Both,
    /// A comparison.
    Compare(CmpOp),
    /// An operator that gives a number.
    Binary(BinOp),
    /// The same with `=`.
    Update(BinOp),
    /// `=`.
    Assign,
}
