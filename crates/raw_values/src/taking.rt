//! Values of symbols, taken off the stack. Written by tools/text_ways.py.

pub mod atoms;
pub mod code;
pub mod declarations;
pub mod definitions;
pub mod primitives;
pub mod types;

ghost use Rattle.std.specs.Prelude.{◌≡◌, ◌∷◌, reverse};
ghost use Rattle.table_reader.specs.declared.item.Item.TheVariants as I;
ghost use Rattle.raw_values.specs.declared.value.Value.TheVariants as V;
ghost use Rattle.raw_values.specs.Stacked.{HasToken, HasMark, HasPart, Is};

use crate::value::{Stack, Value};
use raw_ast::{RawAtom, RawText, RawType};
use text_table::Lexeme;

/// Takes a lexeme off.
#[tactic(auto, using(crate::proofs::Newest::popped))]
pub fn take_token(values: &mut Stack) -> Lexeme
    requires { HasToken (reverse values.old) }
    ensures { reverse values.old ≡ I.Token result ∷ reverse values.new }
{
    let Some(item) = values.pop() else {
        unreachable!()
    };
    match item {
        table_reader::Item::Token(lexeme) => lexeme,
        table_reader::Item::Part(value) => {
            discard(value);
            unreachable!()
        }
    }
}

/// Drops a lexeme that isn't needed.
pub fn drop_token(values: &mut Stack)
    requires { HasToken (reverse values.old) }
    ensures { HasMark (reverse values.old) (reverse values.new) }
{
    let _lexeme = take_token(values);
}

/// Drops a value: in one place, since what drops each variant is long.
pub(crate) fn discard(_value: Value) {}

/// Takes the value of a part off.
#[tactic(auto, using(crate::proofs::Newest::popped))]
pub(crate) fn take_part(values: &mut Stack) -> Value
    requires { HasPart (reverse values.old) }
    ensures { reverse values.old ≡ I.Part result ∷ reverse values.new }
{
    let Some(item) = values.pop() else {
        unreachable!()
    };
    match item {
        table_reader::Item::Token(_) => unreachable!(),
        table_reader::Item::Part(value) => value,
    }
}

/// The text that a value holds.
pub fn held_text(value: Value) -> RawText
    requires { Is V.Text value }
    ensures { value ≡ V.Text result }
{
    match value {
        Value::Text(value) => value.into_inner(),
        other => {
            discard(other);
            unreachable!()
        }
    }
}

/// The type that a value holds.
pub fn held_type(value: Value) -> RawType
    requires { Is V.Type value }
    ensures { value ≡ V.Type result }
{
    match value {
        Value::Type(value) => value.into_inner(),
        other => {
            discard(other);
            unreachable!()
        }
    }
}

/// The atom that a value holds.
pub fn held_atom(value: Value) -> RawAtom
    requires { Is V.Atom value }
    ensures { value ≡ V.Atom result }
{
    match value {
        Value::Atom(value) => value.into_inner(),
        other => {
            discard(other);
            unreachable!()
        }
    }
}
