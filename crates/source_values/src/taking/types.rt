//! Values of parts of types, taken off the stack. Written by tools/source_build.py.

ghost use Rattle.std.specs.Prelude.{◌≡◌, ◌∷◌, reverse};
ghost use Rattle.table_reader.specs.declared.item.Item.TheVariants as I;
ghost use Rattle.source_values.specs.declared.value.Value.TheVariants as V;
ghost use Rattle.source_values.specs.Stacked.{Has};

use crate::taking::{discard, take_part};
use crate::value::{Stack, Value};
use rust_ast::source_types::{Lifetime, Written};
use source_ways::front_list::FrontList;
use source_ways::spanned::Spanned;

/// Takes the value of a part off that is held as `Written`.
pub fn take_written(values: &mut Stack) -> Spanned<Written>
    requires { Has V.Written (reverse values.old) }
    ensures { reverse values.old ≡ I.Part (V.Written result) ∷ reverse values.new }
{
    match take_part(values) {
        Value::Written(value) => value,
        other => {
            discard(other);
            unreachable!()
        }
    }
}

/// Takes the value of a part off that is held as `Writtens`.
pub fn take_writtens(values: &mut Stack) -> Spanned<FrontList<Written>>
    requires { Has V.Writtens (reverse values.old) }
    ensures { reverse values.old ≡ I.Part (V.Writtens result) ∷ reverse values.new }
{
    match take_part(values) {
        Value::Writtens(value) => value,
        other => {
            discard(other);
            unreachable!()
        }
    }
}

/// Takes the value of a part off that is held as `MaybeWritten`.
pub fn take_maybe_written(values: &mut Stack) -> Spanned<Option<Written>>
    requires { Has V.MaybeWritten (reverse values.old) }
    ensures { reverse values.old ≡ I.Part (V.MaybeWritten result) ∷ reverse values.new }
{
    match take_part(values) {
        Value::MaybeWritten(value) => value,
        other => {
            discard(other);
            unreachable!()
        }
    }
}

/// Takes the value of a part off that is held as `Lifetime`.
pub fn take_lifetime(values: &mut Stack) -> Spanned<Lifetime>
    requires { Has V.Lifetime (reverse values.old) }
    ensures { reverse values.old ≡ I.Part (V.Lifetime result) ∷ reverse values.new }
{
    match take_part(values) {
        Value::Lifetime(value) => value,
        other => {
            discard(other);
            unreachable!()
        }
    }
}

/// Takes the value of a part off that is held as `Truth`.
pub fn take_truth(values: &mut Stack) -> Spanned<bool>
    requires { Has V.Truth (reverse values.old) }
    ensures { reverse values.old ≡ I.Part (V.Truth result) ∷ reverse values.new }
{
    match take_part(values) {
        Value::Truth(value) => value,
        other => {
            discard(other);
            unreachable!()
        }
    }
}
