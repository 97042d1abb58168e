//! Values of symbols, taken off the stack. Written by tools/source_build.py.

pub mod blocks;
pub mod expressions;
pub mod items;
pub mod paths;
pub mod patterns;
pub mod types;

ghost use Rattle.std.specs.Prelude.{◌≡◌, ◌∷◌, reverse};
ghost use Rattle.table_reader.specs.declared.item.Item.TheVariants as I;
ghost use Rattle.source_values.specs.declared.value.Value.TheVariants as V;
ghost use Rattle.source_values.specs.Stacked.{HasToken, HasMark, HasPart, Is};

use crate::value::{Stack, Value};
use aen_base::Span;
use rust_ast::program::Item;
use rust_ast::source_types::Written;
use source_grammar::Lexeme;
use source_ways::front_list::FrontList;
use source_ways::spanned::Spanned;

/// Takes a lexeme off.
#[tactic(auto, using(crate::proofs::Newest::popped))]
pub fn take_token(values: &mut Stack) -> Lexeme
    requires { HasToken (reverse values.old) }
    ensures { reverse values.old ≡ I.Token result ∷ reverse values.new }
{
    let Some(item) = values.pop() else {
        unreachable!()
    };
    match item {
        table_reader::Item::Token(lexeme) => lexeme,
        table_reader::Item::Part(value) => {
            discard(value);
            unreachable!()
        }
    }
}

/// Takes a lexeme off of which only its place counts.
pub fn take_mark(values: &mut Stack) -> Span
    requires { HasToken (reverse values.old) }
    ensures { HasMark (reverse values.old) result (reverse values.new) }
{
    let lexeme = take_token(values);
    lexeme.span
}

/// Drops a value: in one place, since what drops each variant is long.
pub(crate) fn discard(_value: Value) {}

/// Takes the value of a part off.
#[tactic(auto, using(crate::proofs::Newest::popped))]
pub(crate) fn take_part(values: &mut Stack) -> Value
    requires { HasPart (reverse values.old) }
    ensures { reverse values.old ≡ I.Part result ∷ reverse values.new }
{
    let Some(item) = values.pop() else {
        unreachable!()
    };
    match item {
        table_reader::Item::Token(_) => unreachable!(),
        table_reader::Item::Part(value) => value,
    }
}

/// The items of a program that a value holds.
pub fn held_items(value: Value) -> Spanned<FrontList<Item>>
    requires { Is V.Items value }
    ensures { value ≡ V.Items result }
{
    match value {
        Value::Items(value) => value,
        other => {
            discard(other);
            unreachable!()
        }
    }
}

/// The types of a list that a value holds.
pub fn held_writtens(value: Value) -> Spanned<FrontList<Written>>
    requires { Is V.Writtens value }
    ensures { value ≡ V.Writtens result }
{
    match value {
        Value::Writtens(value) => value,
        other => {
            discard(other);
            unreachable!()
        }
    }
}
