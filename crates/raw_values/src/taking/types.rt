//! Values of parts of types, taken off the stack. Written by tools/text_ways.py.

ghost use Rattle.std.specs.Prelude.{◌≡◌, ◌∷◌, reverse};
ghost use Rattle.table_reader.specs.declared.item.Item.TheVariants as I;
ghost use Rattle.raw_values.specs.declared.value.Value.TheVariants as V;
ghost use Rattle.raw_values.specs.Stacked.{Has};

use crate::front_list::FrontList;
use crate::rests::AfterTypeName;
use crate::taking::{discard, take_part};
use crate::value::{Stack, Value};
use raw_ast::RawType;

/// Takes the value of a part off that is held as `Type`.
pub fn take_type(values: &mut Stack) -> RawType
    requires { Has V.Type (reverse values.old) }
    ensures { reverse values.old ≡ I.Part (V.Type result) ∷ reverse values.new }
{
    match take_part(values) {
        Value::Type(value) => value.into_inner(),
        other => {
            discard(other);
            unreachable!()
        }
    }
}

/// Takes the value of a part off that is held as `Types`.
pub fn take_types(values: &mut Stack) -> FrontList<RawType>
    requires { Has V.Types (reverse values.old) }
    ensures { reverse values.old ≡ I.Part (V.Types result) ∷ reverse values.new }
{
    match take_part(values) {
        Value::Types(value) => value,
        other => {
            discard(other);
            unreachable!()
        }
    }
}

/// Takes the value of a part off that is held as `AfterTypeName`.
pub fn take_after_type_name(values: &mut Stack) -> AfterTypeName
    requires { Has V.AfterTypeName (reverse values.old) }
    ensures { reverse values.old ≡ I.Part (V.AfterTypeName result) ∷ reverse values.new }
{
    match take_part(values) {
        Value::AfterTypeName(value) => value,
        other => {
            discard(other);
            unreachable!()
        }
    }
}
