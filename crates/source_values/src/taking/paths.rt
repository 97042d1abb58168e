//! Values of parts of paths, taken off the stack. Written by tools/source_build.py.

ghost use Rattle.std.specs.Prelude.{◌≡◌, ◌∷◌, reverse};
ghost use Rattle.table_reader.specs.declared.item.Item.TheVariants as I;
ghost use Rattle.source_values.specs.declared.value.Value.TheVariants as V;
ghost use Rattle.source_values.specs.Stacked.{Has};

use crate::taking::{discard, take_part};
use crate::value::{Stack, Value};
use source_ways::paths::{After, Calling, Further, InMem};
use source_ways::spanned::Spanned;

/// Takes the value of a part off that is held as `After`.
pub fn take_after(values: &mut Stack) -> Spanned<After>
    requires { Has V.After (reverse values.old) }
    ensures { reverse values.old ≡ I.Part (V.After result) ∷ reverse values.new }
{
    match take_part(values) {
        Value::After(value) => value,
        other => {
            discard(other);
            unreachable!()
        }
    }
}

/// Takes the value of a part off that is held as `Further`.
pub fn take_further(values: &mut Stack) -> Spanned<Further>
    requires { Has V.Further (reverse values.old) }
    ensures { reverse values.old ≡ I.Part (V.Further result) ∷ reverse values.new }
{
    match take_part(values) {
        Value::Further(value) => value,
        other => {
            discard(other);
            unreachable!()
        }
    }
}

/// Takes the value of a part off that is held as `InMem`.
pub fn take_in_mem(values: &mut Stack) -> Spanned<InMem>
    requires { Has V.InMem (reverse values.old) }
    ensures { reverse values.old ≡ I.Part (V.InMem result) ∷ reverse values.new }
{
    match take_part(values) {
        Value::InMem(value) => value,
        other => {
            discard(other);
            unreachable!()
        }
    }
}

/// Takes the value of a part off that is held as `Calling`.
pub fn take_calling(values: &mut Stack) -> Spanned<Calling>
    requires { Has V.Calling (reverse values.old) }
    ensures { reverse values.old ≡ I.Part (V.Calling result) ∷ reverse values.new }
{
    match take_part(values) {
        Value::Calling(value) => value,
        other => {
            discard(other);
            unreachable!()
        }
    }
}
