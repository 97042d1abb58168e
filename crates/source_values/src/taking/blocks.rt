//! Values of parts of blocks, taken off the stack. Written by tools/source_build.py.

ghost use Rattle.std.specs.Prelude.{◌≡◌, ◌∷◌, reverse};
ghost use Rattle.table_reader.specs.declared.item.Item.TheVariants as I;
ghost use Rattle.source_values.specs.declared.value.Value.TheVariants as V;
ghost use Rattle.source_values.specs.Stacked.{Has};

use crate::taking::{discard, take_part};
use crate::value::{Stack, Value};
use rust_ast::source::{Block, Expr};
use rust_ast::source_patterns::Pat;
use source_ways::clauses::{ArmBody, Body, Conditional};
use source_ways::front_list::FrontList;
use source_ways::spanned::Spanned;

/// Takes the value of a part off that is held as `Block`.
pub fn take_block(values: &mut Stack) -> Spanned<Block>
    requires { Has V.Block (reverse values.old) }
    ensures { reverse values.old ≡ I.Part (V.Block result) ∷ reverse values.new }
{
    match take_part(values) {
        Value::Block(value) => value,
        other => {
            discard(other);
            unreachable!()
        }
    }
}

/// Takes the value of a part off that is held as `Body`.
pub fn take_body(values: &mut Stack) -> Spanned<Body>
    requires { Has V.Body (reverse values.old) }
    ensures { reverse values.old ≡ I.Part (V.Body result) ∷ reverse values.new }
{
    match take_part(values) {
        Value::Body(value) => value,
        other => {
            discard(other);
            unreachable!()
        }
    }
}

/// Takes the value of a part off that is held as `MaybeBody`.
pub fn take_maybe_body(values: &mut Stack) -> Spanned<Option<Body>>
    requires { Has V.MaybeBody (reverse values.old) }
    ensures { reverse values.old ≡ I.Part (V.MaybeBody result) ∷ reverse values.new }
{
    match take_part(values) {
        Value::MaybeBody(value) => value.into_inner(),
        other => {
            discard(other);
            unreachable!()
        }
    }
}

/// Takes the value of a part off that is held as `Conditional`.
pub fn take_conditional(values: &mut Stack) -> Spanned<Conditional>
    requires { Has V.Conditional (reverse values.old) }
    ensures { reverse values.old ≡ I.Part (V.Conditional result) ∷ reverse values.new }
{
    match take_part(values) {
        Value::Conditional(value) => value.into_inner(),
        other => {
            discard(other);
            unreachable!()
        }
    }
}

/// Takes the value of a part off that is held as `Arms`.
pub fn take_arms(values: &mut Stack) -> Spanned<FrontList<(Pat, Expr)>>
    requires { Has V.Arms (reverse values.old) }
    ensures { reverse values.old ≡ I.Part (V.Arms result) ∷ reverse values.new }
{
    match take_part(values) {
        Value::Arms(value) => value,
        other => {
            discard(other);
            unreachable!()
        }
    }
}

/// Takes the value of a part off that is held as `ArmBody`.
pub fn take_arm_body(values: &mut Stack) -> Spanned<ArmBody>
    requires { Has V.ArmBody (reverse values.old) }
    ensures { reverse values.old ≡ I.Part (V.ArmBody result) ∷ reverse values.new }
{
    match take_part(values) {
        Value::ArmBody(value) => value,
        other => {
            discard(other);
            unreachable!()
        }
    }
}
