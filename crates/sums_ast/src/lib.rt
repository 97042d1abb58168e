//! The source language as trees. A use of a variable or a function is the number of what it names.
#![tactic(auto)]

mod function;
mod tree;

pub use function::{Function, Program};
pub use tree::{Block, BlockNode, Expr, ExprNode, Stmt, StmtNode};
