use crate::front_list::FrontList;
use aen_base::{Name, Span};
use rust_ast::Ident;
use rust_ast::source::Expr;
use rust_ast::source_types::Turbo;
use source_grammar::Class;

/// What stands after a path's last name.
#[derive(Drop)]
pub enum Calling {
    /// Nothing.
    Nothing,
    /// Perhaps types, and arguments.
    Arguments(Turbo, FrontList<Expr>),
}

/// What stands after a path's first name and its types.
#[derive(Drop)]
pub enum Further {
    /// Arguments in round brackets.
    Arguments(FrontList<Expr>),
    /// Fields in braces.
    Fields(FrontList<(Span, Name, Expr)>),
    /// A second name, and what stands after it.
    Second(Ident, Calling),
}

/// What stands after a path's first name.
#[derive(Drop)]
pub enum After {
    /// Nothing.
    Nothing,
    /// Perhaps types, and more.
    More(Turbo, Further),
    /// After `mem`: the word `replace` or `swap`, where it stands, and what stands after it.
    BuiltIn(Class, Span, Calling),
    /// After `std`: where `mem` stands, and the same.
    StdBuiltIn(Span, Class, Span, Calling),
    /// What makes it `panic!`.
    Panics,
    /// What makes it `assert!` of this.
    Asserts(Expr),
}

/// What stands after `std::mem`.
#[derive(Drop)]
pub enum InMem {
    /// What stands after a path of two names.
    Second(Calling),
    /// The word `replace` or `swap`, where it stands, and what stands after it.
    BuiltIn(Class, Span, Calling),
}
