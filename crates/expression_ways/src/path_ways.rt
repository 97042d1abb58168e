//! How paths are read in expressions, with what they are applied to.

ghost use Rattle.std.specs.Prelude.{◌≡◌, IfOk};
ghost use Rattle.source_ways.specs.Paths as spec;

use crate::assertion::asserted;
use aen_base::{Name, NoMem, Span};
use rust_ast::Ident;
use rust_ast::source::{Expr, ExprNode};
use rust_ast::source_types::{Path, Turbo, Written};
use source_grammar::Lexeme;
use source_ways::front_list::FrontList;
use source_ways::path_nodes::{self, built_in, no_turbo, one, turbo, two};
use source_ways::paths::{After, Calling, Further, InMem};
use source_ways::says::ident;
use source_ways::spanned::Spanned;
use std::alloc::Global;

/// A path, called or not.
fn called(whole: Span, path: Path, calling: Calling) -> Expr
    ensures { result ≡ spec.called whole path calling }
{
    let node = match calling {
        Calling::Nothing => ExprNode::Path(whole, path),
        Calling::Arguments(types, arguments) => {
            ExprNode::Call(whole, path, types, arguments.into_list())
        }
    };
    Expr { node }
}

/// A name with its types, and what it is applied to or a second name.
fn continued(whole: Span, name: Ident, types: Turbo, more: Further) -> Expr
    ensures { result ≡ spec.continued whole name types more }
{
    match more {
        Further::Arguments(arguments) => Expr {
            node: ExprNode::Call(whole, one(name), types, arguments.into_list()),
        },
        Further::Fields(initials) => Expr {
            node: ExprNode::Literal(whole, name, types, initials.into_list()),
        },
        Further::Second(second, rest) => called(whole, two(name, types, second), rest),
    }
}

/// A name, and what stands after it. The only error is want of memory.
fn begun_by(alloc: Global, whole: Span, name: Ident, after: After) -> Result<Expr, NoMem>
    ensures { IfOk result (λ it. it ≡ spec.begun_by whole name after) }
{
    match after {
        After::Nothing => Ok(Expr {
            node: ExprNode::Path(whole, one(name)),
        }),
        After::More(types, more) => Ok(continued(whole, name, types, more)),
        After::BuiltIn(word, span, rest) => {
            let path = Span {
                lo: whole.lo,
                hi: span.hi,
            };
            Ok(called(whole, built_in(word, path, name.span, false), rest))
        }
        After::StdBuiltIn(mem, word, span, rest) => {
            let path = Span {
                lo: whole.lo,
                hi: span.hi,
            };
            Ok(called(whole, built_in(word, path, mem, true), rest))
        }
        After::Panics => Ok(Expr {
            node: ExprNode::Panic(whole),
        }),
        After::Asserts(condition) => Ok(asserted(alloc, whole, condition)?),
    }
}

/// An expression that begins with this name. The only error is want of memory.
pub fn named(alloc: Global, whole: Span, name: Lexeme, rest: Spanned<After>) -> Result<Expr, NoMem>
    ensures { IfOk result (λ it. it ≡ spec.named whole name rest) }
{
    let name = ident(alloc, name)?;
    Ok(begun_by(alloc, whole, name, rest.value)?)
}

/// `Box::new`, called or not.
pub fn box_new(
    whole: Span,
    word: Lexeme,
    colons: Lexeme,
    new: Lexeme,
    rest: Spanned<Calling>,
) -> Expr
    ensures { result ≡ spec.box_new whole word colons new rest }
{
    called(whole, path_nodes::box_new(word.span, new.span), rest.value)
}

/// A name that is applied without types.
pub fn applied(whole: Span, more: Spanned<Further>) -> After
    ensures { result ≡ spec.applied whole more }
{
    After::More(no_turbo(), more.value)
}

/// What makes a name `assert!` of a condition.
pub fn asserts(
    whole: Span,
    mark: Lexeme,
    bracket: Lexeme,
    condition: Spanned<Expr>,
    rest: Spanned<()>,
) -> After
    ensures { result ≡ spec.asserts whole mark bracket condition rest }
{
    After::Asserts(condition.value)
}

/// Arguments in round brackets.
pub fn arguments(whole: Span, bracket: Lexeme, exprs: Spanned<FrontList<Expr>>) -> Further
    ensures { result ≡ spec.arguments whole bracket exprs }
{
    Further::Arguments(exprs.value)
}

/// Fields in braces.
pub fn fields(
    whole: Span,
    brace: Lexeme,
    initials: Spanned<FrontList<(Span, Name, Expr)>>,
) -> Further
    ensures { result ≡ spec.fields whole brace initials }
{
    Further::Fields(initials.value)
}

/// A name's types, and what it is applied to or a second name.
pub fn with_types(
    whole: Span,
    less: Lexeme,
    types: Spanned<FrontList<Written>>,
    more: Spanned<Further>,
) -> After
    ensures { result ≡ spec.with_types whole less types more }
{
    After::More(turbo(types.value), more.value)
}

/// A second name directly after the first. The only error is want of memory.
pub fn second_name(
    alloc: Global,
    whole: Span,
    name: Lexeme,
    rest: Spanned<Calling>,
) -> Result<After, NoMem>
    ensures { IfOk result (λ it. it ≡ spec.second_name whole name rest) }
{
    let name = ident(alloc, name)?;
    Ok(After::More(no_turbo(), Further::Second(name, rest.value)))
}

/// A second name after the first one's types. The only error is want of memory.
pub fn later_name(
    alloc: Global,
    whole: Span,
    colons: Lexeme,
    name: Lexeme,
    rest: Spanned<Calling>,
) -> Result<Further, NoMem>
    ensures { IfOk result (λ it. it ≡ spec.later_name whole colons name rest) }
{
    let name = ident(alloc, name)?;
    Ok(Further::Second(name, rest.value))
}

/// `replace` or `swap` after `mem`.
pub fn built_in_name(whole: Span, word: Lexeme, rest: Spanned<Calling>) -> After
    ensures { result ≡ spec.built_in_name whole word rest }
{
    After::BuiltIn(word.class, word.span, rest.value)
}

/// `mem` after `std`, and what stands after it. The only error is want of memory.
fn in_std(alloc: Global, mem: Lexeme, rest: InMem) -> Result<After, NoMem>
    ensures { IfOk result (λ it. it ≡ spec.in_std mem rest) }
{
    match rest {
        InMem::Second(rest) => {
            let mem = ident(alloc, mem)?;
            Ok(After::More(no_turbo(), Further::Second(mem, rest)))
        }
        InMem::BuiltIn(word, span, rest) => Ok(After::StdBuiltIn(mem.span, word, span, rest)),
    }
}

/// `mem` after `std`. The only error is want of memory.
pub fn std_mem(
    alloc: Global,
    whole: Span,
    mem: Lexeme,
    rest: Spanned<InMem>,
) -> Result<After, NoMem>
    ensures { IfOk result (λ it. it ≡ spec.std_mem whole mem rest) }
{
    Ok(in_std(alloc, mem, rest.value)?)
}

/// A call without types.
pub fn plain_call(bracket: Lexeme, exprs: Spanned<FrontList<Expr>>) -> Calling
    ensures { result ≡ spec.plain_call bracket exprs }
{
    Calling::Arguments(no_turbo(), exprs.value)
}

/// A call with types.
pub fn call_with_types(
    types: Spanned<FrontList<Written>>,
    exprs: Spanned<FrontList<Expr>>,
) -> Calling
    ensures { result ≡ spec.call_with_types types exprs }
{
    Calling::Arguments(turbo(types.value), exprs.value)
}

/// `replace` or `swap` after `std::mem`.
pub fn std_built_in(whole: Span, word: Lexeme, rest: Spanned<Calling>) -> InMem
    ensures { result ≡ spec.std_built_in whole word rest }
{
    InMem::BuiltIn(word.class, word.span, rest.value)
}

/// Nothing after a name.
pub fn alone() -> After
    ensures { result ≡ spec.alone }
{
    After::Nothing
}

/// What makes a name `panic!`.
pub fn panics() -> After
    ensures { result ≡ spec.panics }
{
    After::Panics
}

/// Nothing after a path.
pub fn not_called() -> Calling
    ensures { result ≡ spec.not_called }
{
    Calling::Nothing
}
