//! Values of parts of code, taken off the stack. Written by tools/text_ways.py.

ghost use Rattle.std.specs.Prelude.{◌≡◌, ◌∷◌, reverse};
ghost use Rattle.table_reader.specs.declared.item.Item.TheVariants as I;
ghost use Rattle.raw_values.specs.declared.value.Value.TheVariants as V;
ghost use Rattle.raw_values.specs.Stacked.{Has};

use crate::front_list::FrontList;
use crate::rests::Bound;
use crate::taking::{discard, take_part};
use crate::value::{Stack, Value};
use raw_ast::{Computation, Pattern, RawCode};

/// Takes the value of a part off that is held as `Code`.
pub fn take_code(values: &mut Stack) -> RawCode
    requires { Has V.Code (reverse values.old) }
    ensures { reverse values.old ≡ I.Part (V.Code result) ∷ reverse values.new }
{
    match take_part(values) {
        Value::Code(value) => value.into_inner(),
        other => {
            discard(other);
            unreachable!()
        }
    }
}

/// Takes the value of a part off that is held as `Bound`.
pub fn take_bound(values: &mut Stack) -> Bound
    requires { Has V.Bound (reverse values.old) }
    ensures { reverse values.old ≡ I.Part (V.Bound result) ∷ reverse values.new }
{
    match take_part(values) {
        Value::Bound(value) => value.into_inner(),
        other => {
            discard(other);
            unreachable!()
        }
    }
}

/// Takes the value of a part off that is held as `Arms`.
pub fn take_arms(values: &mut Stack) -> FrontList<(Pattern, RawCode)>
    requires { Has V.Arms (reverse values.old) }
    ensures { reverse values.old ≡ I.Part (V.Arms result) ∷ reverse values.new }
{
    match take_part(values) {
        Value::Arms(value) => value,
        other => {
            discard(other);
            unreachable!()
        }
    }
}

/// Takes the value of a part off that is held as `Pattern`.
pub fn take_pattern(values: &mut Stack) -> Pattern
    requires { Has V.Pattern (reverse values.old) }
    ensures { reverse values.old ≡ I.Part (V.Pattern result) ∷ reverse values.new }
{
    match take_part(values) {
        Value::Pattern(value) => value.into_inner(),
        other => {
            discard(other);
            unreachable!()
        }
    }
}

/// Takes the value of a part off that is held as `Computation`.
pub fn take_computation(values: &mut Stack) -> Computation
    requires { Has V.Computation (reverse values.old) }
    ensures { reverse values.old ≡ I.Part (V.Computation result) ∷ reverse values.new }
{
    match take_part(values) {
        Value::Computation(value) => value.into_inner(),
        other => {
            discard(other);
            unreachable!()
        }
    }
}
