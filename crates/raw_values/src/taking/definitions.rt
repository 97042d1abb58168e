//! Values of parts of definitions, taken off the stack. Written by tools/text_ways.py.

ghost use Rattle.std.specs.Prelude.{◌≡◌, ◌∷◌, reverse};
ghost use Rattle.table_reader.specs.declared.item.Item.TheVariants as I;
ghost use Rattle.raw_values.specs.declared.value.Value.TheVariants as V;
ghost use Rattle.raw_values.specs.Stacked.{Has};

use crate::front_list::FrontList;
use crate::rests::NameEnd;
use crate::taking::{discard, take_part};
use crate::value::{Stack, Value};
use raw_ast::{Definition, DefinitionName, Spelling};

/// Takes the value of a part off that is held as `Definitions`.
pub fn take_definitions(values: &mut Stack) -> FrontList<Definition>
    requires { Has V.Definitions (reverse values.old) }
    ensures { reverse values.old ≡ I.Part (V.Definitions result) ∷ reverse values.new }
{
    match take_part(values) {
        Value::Definitions(value) => value,
        other => {
            discard(other);
            unreachable!()
        }
    }
}

/// Takes the value of a part off that is held as `Definition`.
pub fn take_definition(values: &mut Stack) -> Definition
    requires { Has V.Definition (reverse values.old) }
    ensures { reverse values.old ≡ I.Part (V.Definition result) ∷ reverse values.new }
{
    match take_part(values) {
        Value::Definition(value) => value.into_inner(),
        other => {
            discard(other);
            unreachable!()
        }
    }
}

/// Takes the value of a part off that is held as `Nothing`.
pub fn take_nothing(values: &mut Stack) -> ()
    requires { Has V.Nothing (reverse values.old) }
    ensures { reverse values.old ≡ I.Part (V.Nothing result) ∷ reverse values.new }
{
    match take_part(values) {
        Value::Nothing(value) => value,
        other => {
            discard(other);
            unreachable!()
        }
    }
}

/// Takes the value of a part off that is held as `DefinitionName`.
pub fn take_definition_name(values: &mut Stack) -> DefinitionName
    requires { Has V.DefinitionName (reverse values.old) }
    ensures { reverse values.old ≡ I.Part (V.DefinitionName result) ∷ reverse values.new }
{
    match take_part(values) {
        Value::DefinitionName(value) => value.into_inner(),
        other => {
            discard(other);
            unreachable!()
        }
    }
}

/// Takes the value of a part off that is held as `NameEnd`.
pub fn take_name_end(values: &mut Stack) -> NameEnd
    requires { Has V.NameEnd (reverse values.old) }
    ensures { reverse values.old ≡ I.Part (V.NameEnd result) ∷ reverse values.new }
{
    match take_part(values) {
        Value::NameEnd(value) => value.into_inner(),
        other => {
            discard(other);
            unreachable!()
        }
    }
}

/// Takes the value of a part off that is held as `BackEnd`.
pub fn take_back_end(values: &mut Stack) -> Option<Spelling>
    requires { Has V.BackEnd (reverse values.old) }
    ensures { reverse values.old ≡ I.Part (V.BackEnd result) ∷ reverse values.new }
{
    match take_part(values) {
        Value::BackEnd(value) => value.into_inner(),
        other => {
            discard(other);
            unreachable!()
        }
    }
}
