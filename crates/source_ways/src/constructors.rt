use crate::front_list::FrontList;
use aen_base::Span;
use rust_ast::Ident;
use rust_ast::source_patterns::{FieldPat, Pat};
use rust_ast::source_types::Turbo;
use source_grammar::Class;

/// The parts of a pattern after its path.
#[derive(Drop)]
pub enum Given {
    /// By place in round brackets, or none.
    Placed(FrontList<Pat>),
    /// By name in braces.
    Named(FrontList<FieldPat>),
}

/// What stands after the first name of a pattern.
#[derive(Drop)]
pub enum AfterName {
    /// Nothing.
    Nothing,
    /// Its parts.
    Parts(Given),
    /// Perhaps types, a second name, and the parts.
    Second(Turbo, Ident, Given),
    /// After `mem`: the word `replace` or `swap`, where it stands, and the parts.
    BuiltIn(Class, Span, Given),
    /// After `std`: where `mem` stands, and the same.
    StdBuiltIn(Span, Class, Span, Given),
}

/// What stands after `std::mem` in a pattern.
#[derive(Drop)]
pub enum AfterMem {
    /// The parts after a path of two names.
    Second(Given),
    /// The word `replace` or `swap`, where it stands, and the parts.
    BuiltIn(Class, Span, Given),
}
