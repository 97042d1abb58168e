//! Values of parts of expressions, taken off the stack. Written by tools/source_build.py.

ghost use Rattle.std.specs.Prelude.{◌≡◌, ◌∷◌, reverse};
ghost use Rattle.table_reader.specs.declared.item.Item.TheVariants as I;
ghost use Rattle.source_values.specs.declared.value.Value.TheVariants as V;
ghost use Rattle.source_values.specs.Stacked.{Has};

use crate::taking::{discard, take_part};
use crate::value::{Stack, Value};
use aen_base::{IntTy, Name, Span};
use rust_ast::Ident;
use rust_ast::source::Expr;
use source_ways::front_list::FrontList;
use source_ways::operations::{Borrowed, Operation};
use source_ways::spanned::Spanned;

/// Takes the value of a part off that is held as `Expr`.
pub fn take_expr(values: &mut Stack) -> Spanned<Expr>
    requires { Has V.Expr (reverse values.old) }
    ensures { reverse values.old ≡ I.Part (V.Expr result) ∷ reverse values.new }
{
    match take_part(values) {
        Value::Expr(value) => value,
        other => {
            discard(other);
            unreachable!()
        }
    }
}

/// Takes the value of a part off that is held as `Exprs`.
pub fn take_exprs(values: &mut Stack) -> Spanned<FrontList<Expr>>
    requires { Has V.Exprs (reverse values.old) }
    ensures { reverse values.old ≡ I.Part (V.Exprs result) ∷ reverse values.new }
{
    match take_part(values) {
        Value::Exprs(value) => value,
        other => {
            discard(other);
            unreachable!()
        }
    }
}

/// Takes the value of a part off that is held as `MaybeExpr`.
pub fn take_maybe_expr(values: &mut Stack) -> Spanned<Option<Expr>>
    requires { Has V.MaybeExpr (reverse values.old) }
    ensures { reverse values.old ≡ I.Part (V.MaybeExpr result) ∷ reverse values.new }
{
    match take_part(values) {
        Value::MaybeExpr(value) => value,
        other => {
            discard(other);
            unreachable!()
        }
    }
}

/// Takes the value of a part off that is held as `Operations`.
pub fn take_operations(values: &mut Stack) -> Spanned<FrontList<Operation>>
    requires { Has V.Operations (reverse values.old) }
    ensures { reverse values.old ≡ I.Part (V.Operations result) ∷ reverse values.new }
{
    match take_part(values) {
        Value::Operations(value) => value,
        other => {
            discard(other);
            unreachable!()
        }
    }
}

/// Takes the value of a part off that is held as `Casts`.
pub fn take_casts(values: &mut Stack) -> Spanned<FrontList<(Span, IntTy)>>
    requires { Has V.Casts (reverse values.old) }
    ensures { reverse values.old ≡ I.Part (V.Casts result) ∷ reverse values.new }
{
    match take_part(values) {
        Value::Casts(value) => value,
        other => {
            discard(other);
            unreachable!()
        }
    }
}

/// Takes the value of a part off that is held as `Borrowed`.
pub fn take_borrowed(values: &mut Stack) -> Spanned<Borrowed>
    requires { Has V.Borrowed (reverse values.old) }
    ensures { reverse values.old ≡ I.Part (V.Borrowed result) ∷ reverse values.new }
{
    match take_part(values) {
        Value::Borrowed(value) => value,
        other => {
            discard(other);
            unreachable!()
        }
    }
}

/// Takes the value of a part off that is held as `Ident`.
pub fn take_ident(values: &mut Stack) -> Spanned<Ident>
    requires { Has V.Ident (reverse values.old) }
    ensures { reverse values.old ≡ I.Part (V.Ident result) ∷ reverse values.new }
{
    match take_part(values) {
        Value::Ident(value) => value,
        other => {
            discard(other);
            unreachable!()
        }
    }
}

/// Takes the value of a part off that is held as `Initial`.
pub fn take_initial(values: &mut Stack) -> Spanned<(Span, Name, Expr)>
    requires { Has V.Initial (reverse values.old) }
    ensures { reverse values.old ≡ I.Part (V.Initial result) ∷ reverse values.new }
{
    match take_part(values) {
        Value::Initial(value) => value,
        other => {
            discard(other);
            unreachable!()
        }
    }
}

/// Takes the value of a part off that is held as `Initials`.
pub fn take_initials(values: &mut Stack) -> Spanned<FrontList<(Span, Name, Expr)>>
    requires { Has V.Initials (reverse values.old) }
    ensures { reverse values.old ≡ I.Part (V.Initials result) ∷ reverse values.new }
{
    match take_part(values) {
        Value::Initials(value) => value,
        other => {
            discard(other);
            unreachable!()
        }
    }
}
