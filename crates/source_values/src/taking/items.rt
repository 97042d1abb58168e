//! Values of parts of items, taken off the stack. Written by tools/source_build.py.

ghost use Rattle.std.specs.Prelude.{◌≡◌, ◌∷◌, reverse};
ghost use Rattle.table_reader.specs.declared.item.Item.TheVariants as I;
ghost use Rattle.source_values.specs.declared.value.Value.TheVariants as V;
ghost use Rattle.source_values.specs.Stacked.{Has};

use crate::taking::{discard, take_part};
use crate::value::{Stack, Value};
use aen_base::{Name, Span};
use rust_ast::Ident;
use rust_ast::program::{Fields, Item, Param, Variant};
use rust_ast::source_types::Written;
use source_ways::front_list::FrontList;
use source_ways::generics::Generics;
use source_ways::spanned::Spanned;

/// Takes the value of a part off that is held as `Items`.
pub fn take_items(values: &mut Stack) -> Spanned<FrontList<Item>>
    requires { Has V.Items (reverse values.old) }
    ensures { reverse values.old ≡ I.Part (V.Items result) ∷ reverse values.new }
{
    match take_part(values) {
        Value::Items(value) => value,
        other => {
            discard(other);
            unreachable!()
        }
    }
}

/// Takes the value of a part off that is held as `Nothing`.
pub fn take_nothing(values: &mut Stack) -> Spanned<()>
    requires { Has V.Nothing (reverse values.old) }
    ensures { reverse values.old ≡ I.Part (V.Nothing result) ∷ reverse values.new }
{
    match take_part(values) {
        Value::Nothing(value) => value,
        other => {
            discard(other);
            unreachable!()
        }
    }
}

/// Takes the value of a part off that is held as `Item`.
pub fn take_item(values: &mut Stack) -> Spanned<Item>
    requires { Has V.Item (reverse values.old) }
    ensures { reverse values.old ≡ I.Part (V.Item result) ∷ reverse values.new }
{
    match take_part(values) {
        Value::Item(value) => value.into_inner(),
        other => {
            discard(other);
            unreachable!()
        }
    }
}

/// Takes the value of a part off that is held as `Generics`.
pub fn take_generics(values: &mut Stack) -> Spanned<Generics>
    requires { Has V.Generics (reverse values.old) }
    ensures { reverse values.old ≡ I.Part (V.Generics result) ∷ reverse values.new }
{
    match take_part(values) {
        Value::Generics(value) => value,
        other => {
            discard(other);
            unreachable!()
        }
    }
}

/// Takes the value of a part off that is held as `Idents`.
pub fn take_idents(values: &mut Stack) -> Spanned<FrontList<Ident>>
    requires { Has V.Idents (reverse values.old) }
    ensures { reverse values.old ≡ I.Part (V.Idents result) ∷ reverse values.new }
{
    match take_part(values) {
        Value::Idents(value) => value,
        other => {
            discard(other);
            unreachable!()
        }
    }
}

/// Takes the value of a part off that is held as `Param`.
pub fn take_param(values: &mut Stack) -> Spanned<Param>
    requires { Has V.Param (reverse values.old) }
    ensures { reverse values.old ≡ I.Part (V.Param result) ∷ reverse values.new }
{
    match take_part(values) {
        Value::Param(value) => value,
        other => {
            discard(other);
            unreachable!()
        }
    }
}

/// Takes the value of a part off that is held as `Params`.
pub fn take_params(values: &mut Stack) -> Spanned<FrontList<Param>>
    requires { Has V.Params (reverse values.old) }
    ensures { reverse values.old ≡ I.Part (V.Params result) ∷ reverse values.new }
{
    match take_part(values) {
        Value::Params(value) => value,
        other => {
            discard(other);
            unreachable!()
        }
    }
}

/// Takes the value of a part off that is held as `Fields`.
pub fn take_fields(values: &mut Stack) -> Spanned<Fields>
    requires { Has V.Fields (reverse values.old) }
    ensures { reverse values.old ≡ I.Part (V.Fields result) ∷ reverse values.new }
{
    match take_part(values) {
        Value::Fields(value) => value,
        other => {
            discard(other);
            unreachable!()
        }
    }
}

/// Takes the value of a part off that is held as `Field`.
pub fn take_field(values: &mut Stack) -> Spanned<(Span, Name, Written)>
    requires { Has V.Field (reverse values.old) }
    ensures { reverse values.old ≡ I.Part (V.Field result) ∷ reverse values.new }
{
    match take_part(values) {
        Value::Field(value) => value,
        other => {
            discard(other);
            unreachable!()
        }
    }
}

/// Takes the value of a part off that is held as `NamedFields`.
pub fn take_named_fields(values: &mut Stack) -> Spanned<FrontList<(Span, Name, Written)>>
    requires { Has V.NamedFields (reverse values.old) }
    ensures { reverse values.old ≡ I.Part (V.NamedFields result) ∷ reverse values.new }
{
    match take_part(values) {
        Value::NamedFields(value) => value,
        other => {
            discard(other);
            unreachable!()
        }
    }
}

/// Takes the value of a part off that is held as `Variant`.
pub fn take_variant(values: &mut Stack) -> Spanned<Variant>
    requires { Has V.Variant (reverse values.old) }
    ensures { reverse values.old ≡ I.Part (V.Variant result) ∷ reverse values.new }
{
    match take_part(values) {
        Value::Variant(value) => value,
        other => {
            discard(other);
            unreachable!()
        }
    }
}

/// Takes the value of a part off that is held as `Variants`.
pub fn take_variants(values: &mut Stack) -> Spanned<FrontList<Variant>>
    requires { Has V.Variants (reverse values.old) }
    ensures { reverse values.old ≡ I.Part (V.Variants result) ∷ reverse values.new }
{
    match take_part(values) {
        Value::Variants(value) => value,
        other => {
            discard(other);
            unreachable!()
        }
    }
}
