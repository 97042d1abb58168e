use crate::front_list::FrontList;
use rust_ast::source::{Block, Expr, Stmt};
use rust_ast::source_patterns::Pat;

/// What is left of a block: statements, and the last expression, which gives its value.
#[derive(Drop)]
pub struct Body {
    pub statements: FrontList<Stmt>,
    pub value: Option<Expr>,
}

/// What an `if` or a `while` asks.
#[derive(Drop)]
pub enum Condition {
    /// Whether this is true.
    Holds(Expr),
    /// Whether the pattern matches this.
    Matches(Pat, Expr),
}

/// What stands after `if` or `while`.
#[derive(Drop)]
pub struct Conditional {
    pub condition: Condition,
    /// What is done where it is met.
    pub body: Block,
    /// What stands after `else`.
    pub otherwise: Option<Expr>,
}

/// The body of an arm, and the arms after it.
#[derive(Drop)]
pub struct ArmBody {
    pub body: Expr,
    pub more: FrontList<(Pat, Expr)>,
}
