//! What is held of each part. Written by tools/source_build.py.

use aen_base::{Boxed, IntTy, List, Name, Span};
use rust_ast::Ident;
use rust_ast::program::{Fields, Item, Param, Variant};
use rust_ast::source::{Block, Expr};
use rust_ast::source_patterns::{FieldPat, Pat};
use rust_ast::source_types::{Lifetime, Written};
use source_grammar::Lexeme;
use source_ways::clauses::{ArmBody, Body, Conditional};
use source_ways::constructors::{AfterMem, AfterName, Given};
use source_ways::front_list::FrontList;
use source_ways::generics::Generics;
use source_ways::operations::{Borrowed, Operation};
use source_ways::paths::{After, Calling, Further, InMem};
use source_ways::spanned::Spanned;

/// The value of a part, with its extent: a variant for each type that parts carry.
#[derive(Drop)]
pub enum Value {
    Items(Spanned<FrontList<Item>>),
    Nothing(Spanned<()>),
    Item(Boxed<Spanned<Item>>),
    Generics(Spanned<Generics>),
    Idents(Spanned<FrontList<Ident>>),
    Param(Spanned<Param>),
    Params(Spanned<FrontList<Param>>),
    Fields(Spanned<Fields>),
    Field(Spanned<(Span, Name, Written)>),
    NamedFields(Spanned<FrontList<(Span, Name, Written)>>),
    Variant(Spanned<Variant>),
    Variants(Spanned<FrontList<Variant>>),
    Written(Spanned<Written>),
    Writtens(Spanned<FrontList<Written>>),
    MaybeWritten(Spanned<Option<Written>>),
    Lifetime(Spanned<Lifetime>),
    Truth(Spanned<bool>),
    Block(Spanned<Block>),
    Body(Spanned<Body>),
    MaybeBody(Boxed<Spanned<Option<Body>>>),
    Conditional(Boxed<Spanned<Conditional>>),
    Arms(Spanned<FrontList<(Pat, Expr)>>),
    ArmBody(Spanned<ArmBody>),
    Expr(Spanned<Expr>),
    Exprs(Spanned<FrontList<Expr>>),
    MaybeExpr(Spanned<Option<Expr>>),
    Operations(Spanned<FrontList<Operation>>),
    Casts(Spanned<FrontList<(Span, IntTy)>>),
    Borrowed(Spanned<Borrowed>),
    Ident(Spanned<Ident>),
    Initial(Spanned<(Span, Name, Expr)>),
    Initials(Spanned<FrontList<(Span, Name, Expr)>>),
    After(Spanned<After>),
    Further(Spanned<Further>),
    InMem(Spanned<InMem>),
    Calling(Spanned<Calling>),
    Pat(Spanned<Pat>),
    Pats(Spanned<FrontList<Pat>>),
    MaybePat(Spanned<Option<Pat>>),
    FieldPat(Spanned<FieldPat>),
    FieldPats(Spanned<FrontList<FieldPat>>),
    Given(Spanned<Given>),
    AfterName(Spanned<AfterName>),
    AfterMem(Spanned<AfterMem>),
}

/// The values of symbols, the newest last.
pub type Stack = List<table_reader::Item<Lexeme, Value>>;
