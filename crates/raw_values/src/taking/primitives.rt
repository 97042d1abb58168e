//! Values of parts of primitives, taken off the stack. Written by tools/text_ways.py.

ghost use Rattle.std.specs.Prelude.{◌≡◌, ◌∷◌, reverse};
ghost use Rattle.table_reader.specs.declared.item.Item.TheVariants as I;
ghost use Rattle.raw_values.specs.declared.value.Value.TheVariants as V;
ghost use Rattle.raw_values.specs.Stacked.{Has};

use crate::taking::{discard, take_part};
use crate::value::{Stack, Value};
use raw_ast::Operation;

/// Takes the value of a part off that is held as `Operation`.
pub fn take_operation(values: &mut Stack) -> Operation
    requires { Has V.Operation (reverse values.old) }
    ensures { reverse values.old ≡ I.Part (V.Operation result) ∷ reverse values.new }
{
    match take_part(values) {
        Value::Operation(value) => value,
        other => {
            discard(other);
            unreachable!()
        }
    }
}

/// Takes the value of a part off that is held as `OperationEnd`.
pub fn take_operation_end(values: &mut Stack) -> Option<Operation>
    requires { Has V.OperationEnd (reverse values.old) }
    ensures { reverse values.old ≡ I.Part (V.OperationEnd result) ∷ reverse values.new }
{
    match take_part(values) {
        Value::OperationEnd(value) => value,
        other => {
            discard(other);
            unreachable!()
        }
    }
}
