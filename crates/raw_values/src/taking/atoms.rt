//! Values of parts of atoms, taken off the stack. Written by tools/text_ways.py.

ghost use Rattle.std.specs.Prelude.{◌≡◌, ◌∷◌, reverse};
ghost use Rattle.table_reader.specs.declared.item.Item.TheVariants as I;
ghost use Rattle.raw_values.specs.declared.value.Value.TheVariants as V;
ghost use Rattle.raw_values.specs.Stacked.{Has};

use crate::front_list::FrontList;
use crate::rests::AfterConstructor;
use crate::taking::{discard, take_part};
use crate::value::{Stack, Value};
use raw_ast::{Constructor, RawAtom};

/// Takes the value of a part off that is held as `Atom`.
pub fn take_atom(values: &mut Stack) -> RawAtom
    requires { Has V.Atom (reverse values.old) }
    ensures { reverse values.old ≡ I.Part (V.Atom result) ∷ reverse values.new }
{
    match take_part(values) {
        Value::Atom(value) => value.into_inner(),
        other => {
            discard(other);
            unreachable!()
        }
    }
}

/// Takes the value of a part off that is held as `Atoms`.
pub fn take_atoms(values: &mut Stack) -> FrontList<RawAtom>
    requires { Has V.Atoms (reverse values.old) }
    ensures { reverse values.old ≡ I.Part (V.Atoms result) ∷ reverse values.new }
{
    match take_part(values) {
        Value::Atoms(value) => value,
        other => {
            discard(other);
            unreachable!()
        }
    }
}

/// Takes the value of a part off that is held as `Constructor`.
pub fn take_constructor(values: &mut Stack) -> Constructor
    requires { Has V.Constructor (reverse values.old) }
    ensures { reverse values.old ≡ I.Part (V.Constructor result) ∷ reverse values.new }
{
    match take_part(values) {
        Value::Constructor(value) => value.into_inner(),
        other => {
            discard(other);
            unreachable!()
        }
    }
}

/// Takes the value of a part off that is held as `AfterConstructor`.
pub fn take_after_constructor(values: &mut Stack) -> AfterConstructor
    requires { Has V.AfterConstructor (reverse values.old) }
    ensures { reverse values.old ≡ I.Part (V.AfterConstructor result) ∷ reverse values.new }
{
    match take_part(values) {
        Value::AfterConstructor(value) => value,
        other => {
            discard(other);
            unreachable!()
        }
    }
}
