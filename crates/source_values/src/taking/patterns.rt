//! Values of parts of patterns, taken off the stack. Written by tools/source_build.py.

ghost use Rattle.std.specs.Prelude.{◌≡◌, ◌∷◌, reverse};
ghost use Rattle.table_reader.specs.declared.item.Item.TheVariants as I;
ghost use Rattle.source_values.specs.declared.value.Value.TheVariants as V;
ghost use Rattle.source_values.specs.Stacked.{Has};

use crate::taking::{discard, take_part};
use crate::value::{Stack, Value};
use rust_ast::source_patterns::{FieldPat, Pat};
use source_ways::constructors::{AfterMem, AfterName, Given};
use source_ways::front_list::FrontList;
use source_ways::spanned::Spanned;

/// Takes the value of a part off that is held as `Pat`.
pub fn take_pat(values: &mut Stack) -> Spanned<Pat>
    requires { Has V.Pat (reverse values.old) }
    ensures { reverse values.old ≡ I.Part (V.Pat result) ∷ reverse values.new }
{
    match take_part(values) {
        Value::Pat(value) => value,
        other => {
            discard(other);
            unreachable!()
        }
    }
}

/// Takes the value of a part off that is held as `Pats`.
pub fn take_pats(values: &mut Stack) -> Spanned<FrontList<Pat>>
    requires { Has V.Pats (reverse values.old) }
    ensures { reverse values.old ≡ I.Part (V.Pats result) ∷ reverse values.new }
{
    match take_part(values) {
        Value::Pats(value) => value,
        other => {
            discard(other);
            unreachable!()
        }
    }
}

/// Takes the value of a part off that is held as `MaybePat`.
pub fn take_maybe_pat(values: &mut Stack) -> Spanned<Option<Pat>>
    requires { Has V.MaybePat (reverse values.old) }
    ensures { reverse values.old ≡ I.Part (V.MaybePat result) ∷ reverse values.new }
{
    match take_part(values) {
        Value::MaybePat(value) => value,
        other => {
            discard(other);
            unreachable!()
        }
    }
}

/// Takes the value of a part off that is held as `FieldPat`.
pub fn take_field_pat(values: &mut Stack) -> Spanned<FieldPat>
    requires { Has V.FieldPat (reverse values.old) }
    ensures { reverse values.old ≡ I.Part (V.FieldPat result) ∷ reverse values.new }
{
    match take_part(values) {
        Value::FieldPat(value) => value,
        other => {
            discard(other);
            unreachable!()
        }
    }
}

/// Takes the value of a part off that is held as `FieldPats`.
pub fn take_field_pats(values: &mut Stack) -> Spanned<FrontList<FieldPat>>
    requires { Has V.FieldPats (reverse values.old) }
    ensures { reverse values.old ≡ I.Part (V.FieldPats result) ∷ reverse values.new }
{
    match take_part(values) {
        Value::FieldPats(value) => value,
        other => {
            discard(other);
            unreachable!()
        }
    }
}

/// Takes the value of a part off that is held as `Given`.
pub fn take_given(values: &mut Stack) -> Spanned<Given>
    requires { Has V.Given (reverse values.old) }
    ensures { reverse values.old ≡ I.Part (V.Given result) ∷ reverse values.new }
{
    match take_part(values) {
        Value::Given(value) => value,
        other => {
            discard(other);
            unreachable!()
        }
    }
}

/// Takes the value of a part off that is held as `AfterName`.
pub fn take_after_name(values: &mut Stack) -> Spanned<AfterName>
    requires { Has V.AfterName (reverse values.old) }
    ensures { reverse values.old ≡ I.Part (V.AfterName result) ∷ reverse values.new }
{
    match take_part(values) {
        Value::AfterName(value) => value,
        other => {
            discard(other);
            unreachable!()
        }
    }
}

/// Takes the value of a part off that is held as `AfterMem`.
pub fn take_after_mem(values: &mut Stack) -> Spanned<AfterMem>
    requires { Has V.AfterMem (reverse values.old) }
    ensures { reverse values.old ≡ I.Part (V.AfterMem result) ∷ reverse values.new }
{
    match take_part(values) {
        Value::AfterMem(value) => value,
        other => {
            discard(other);
            unreachable!()
        }
    }
}
