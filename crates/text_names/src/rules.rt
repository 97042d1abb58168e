//! The rules on variables, numbers and primitives.

ghost use Rattle.std.specs.Prelude.{◌≡◌, Some};
ghost use Rattle.raw_meaning.specs.Numbers.{number_of};
ghost use Rattle.raw_meaning.specs.Rules as rule;
ghost use Rattle.raw_meaning.specs.Trees as trees;
ghost use Rattle.text_meaning.specs.Ranges as ranges;
ghost use Rattle.text_names.specs.Settled.{Settles, Keeps};

use crate::digits;
use crate::numbered::numbered;
use aen_base::{Builtin, IntTy, Num, Span};
use pure_ast::{BoolOp, Primitive};
use raw_ast::{Operation, Spelling};

/// The rule holds, or is broken there.
pub(crate) fn unless(holds: bool, place: Span) -> Result<(), Span>
    ensures { Keeps (rule.unless holds place) result }
{
    if holds { Ok(()) } else { Err(place) }
}

/// What is declared with so many parts; the rule is broken where nothing is, or it has others.
pub(crate) fn with_parts<T: Copy>(
    found: Option<(T, usize)>,
    count: usize,
    place: Span,
) -> Result<T, Span>
    ensures { Settles (rule.unless_parts found count place) (trees.with_parts found count) result }
{
    match found {
        None => Err(place),
        Some((item, parts)) => { if parts == count { Ok(item) } else { Err(place) } }
    }
}

/// A variable's number; where it has none below 2^32 without leading zeros, the place.
pub fn variable(name: &Spelling) -> Result<u32, Span>
    ensures { Settles (rule.variable name.now) (trees.variable_number name.now) result }
{
    match numbered("v", &name.text) {
        None => Err(name.span),
        Some(number) => Ok(number),
    }
}

/// The parameter in this place, from 0, is the variable of that number; else the place.
pub fn parameter(place: usize, name: &Spelling) -> Result<(), Span>
    ensures { Keeps (rule.parameter place name.now) result }
{
    match numbered("v", &name.text) {
        None => Err(name.span),
        Some(number) => unless(number as usize == place, name.span),
    }
}

/// A number of a type; where the digits write none that is in its range, the place.
pub fn number(digits: &Spelling, ty: IntTy) -> Result<Num, Span>
    ensures { Settles (rule.number digits.now ty) (number_of digits.now.text ty) result }
{
    match digits::number_of(digits.text.as_str().as_bytes(), ty) {
        None => Err(digits.span),
        Some(number) => Ok(number),
    }
}

/// A primitive with as many parts as it has; else the place of its last token.
pub fn operation(operation: &Operation, count: usize) -> Result<Primitive, Span>
    ensures { Settles (rule.operation operation.now count) (trees.with_parts (Some (operation.now.primitive, ranges.arity operation.now.primitive)) count) result }
{
    let parts = arity(operation.primitive);
    with_parts(Some((operation.primitive, parts)), count, operation.span)
}

/// How many parts a primitive has.
fn arity(primitive: Primitive) -> usize
    ensures { result ≡ ranges.arity primitive }
{
    match primitive {
        Primitive::Arith(_, _) => 2,
        Primitive::Neg(_) => 1,
        Primitive::Not(_) => 1,
        Primitive::Compare(_, _) => 2,
        Primitive::Bools(op) => truth_arity(op),
        Primitive::Cast(_, _) => 1,
        Primitive::CastBool(_) => 1,
        Primitive::Forward(builtin) => builtin_arity(builtin),
        Primitive::Back(builtin, _) => builtin_arity(builtin),
    }
}

/// How many parts an operator on bools has.
fn truth_arity(op: BoolOp) -> usize
    ensures { result ≡ ranges.truth_arity op }
{
    match op {
        BoolOp::Not => 1,
        BoolOp::Eq => 2,
        BoolOp::Ne => 2,
        BoolOp::And => 2,
        BoolOp::Or => 2,
        BoolOp::Xor => 2,
    }
}

/// How many parts a builtin function has.
fn builtin_arity(builtin: Builtin) -> usize
    ensures { result ≡ ranges.builtin_arity builtin }
{
    match builtin {
        Builtin::BoxNew => 1,
        Builtin::Replace => 2,
        Builtin::Swap => 2,
    }
}
