//! Values of parts of declarations, taken off the stack. Written by tools/text_ways.py.

ghost use Rattle.std.specs.Prelude.{◌≡◌, ◌∷◌, reverse};
ghost use Rattle.table_reader.specs.declared.item.Item.TheVariants as I;
ghost use Rattle.raw_values.specs.declared.value.Value.TheVariants as V;
ghost use Rattle.raw_values.specs.Stacked.{Has};

use crate::front_list::FrontList;
use crate::rests::{AfterName, VariantRest};
use crate::taking::{discard, take_part};
use crate::value::{Stack, Value};
use raw_ast::{Declaration, RawText, RawType, Spelling, Variant};

/// Takes the value of a part off that is held as `Text`.
pub fn take_text(values: &mut Stack) -> RawText
    requires { Has V.Text (reverse values.old) }
    ensures { reverse values.old ≡ I.Part (V.Text result) ∷ reverse values.new }
{
    match take_part(values) {
        Value::Text(value) => value.into_inner(),
        other => {
            discard(other);
            unreachable!()
        }
    }
}

/// Takes the value of a part off that is held as `Declarations`.
pub fn take_declarations(values: &mut Stack) -> FrontList<Declaration>
    requires { Has V.Declarations (reverse values.old) }
    ensures { reverse values.old ≡ I.Part (V.Declarations result) ∷ reverse values.new }
{
    match take_part(values) {
        Value::Declarations(value) => value,
        other => {
            discard(other);
            unreachable!()
        }
    }
}

/// Takes the value of a part off that is held as `Declaration`.
pub fn take_declaration(values: &mut Stack) -> Declaration
    requires { Has V.Declaration (reverse values.old) }
    ensures { reverse values.old ≡ I.Part (V.Declaration result) ∷ reverse values.new }
{
    match take_part(values) {
        Value::Declaration(value) => value.into_inner(),
        other => {
            discard(other);
            unreachable!()
        }
    }
}

/// Takes the value of a part off that is held as `Names`.
pub fn take_names(values: &mut Stack) -> FrontList<Spelling>
    requires { Has V.Names (reverse values.old) }
    ensures { reverse values.old ≡ I.Part (V.Names result) ∷ reverse values.new }
{
    match take_part(values) {
        Value::Names(value) => value,
        other => {
            discard(other);
            unreachable!()
        }
    }
}

/// Takes the value of a part off that is held as `Variants`.
pub fn take_variants(values: &mut Stack) -> FrontList<Variant>
    requires { Has V.Variants (reverse values.old) }
    ensures { reverse values.old ≡ I.Part (V.Variants result) ∷ reverse values.new }
{
    match take_part(values) {
        Value::Variants(value) => value,
        other => {
            discard(other);
            unreachable!()
        }
    }
}

/// Takes the value of a part off that is held as `VariantRest`.
pub fn take_variant_rest(values: &mut Stack) -> VariantRest
    requires { Has V.VariantRest (reverse values.old) }
    ensures { reverse values.old ≡ I.Part (V.VariantRest result) ∷ reverse values.new }
{
    match take_part(values) {
        Value::VariantRest(value) => value.into_inner(),
        other => {
            discard(other);
            unreachable!()
        }
    }
}

/// Takes the value of a part off that is held as `AfterName`.
pub fn take_after_name(values: &mut Stack) -> AfterName
    requires { Has V.AfterName (reverse values.old) }
    ensures { reverse values.old ≡ I.Part (V.AfterName result) ∷ reverse values.new }
{
    match take_part(values) {
        Value::AfterName(value) => value.into_inner(),
        other => {
            discard(other);
            unreachable!()
        }
    }
}

/// Takes the value of a part off that is held as `Fields`.
pub fn take_fields(values: &mut Stack) -> FrontList<(Spelling, RawType)>
    requires { Has V.Fields (reverse values.old) }
    ensures { reverse values.old ≡ I.Part (V.Fields result) ∷ reverse values.new }
{
    match take_part(values) {
        Value::Fields(value) => value,
        other => {
            discard(other);
            unreachable!()
        }
    }
}
