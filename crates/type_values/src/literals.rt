//! Integers as they are written.
ghost use Rattle.std.specs.Prelude.{◌≡◌, Some, option_copied};
ghost use Rattle.rust_ast.specs.Patterns.{suffix, no_suffix};
ghost use Rattle.core_ty.specs.Types as t;
ghost use Rattle.type_rules.specs.Literals as spec;
ghost use Rattle.type_rules.specs.TypeFacts.{same};
ghost use Rattle.type_values.specs.Gives.{Answers};

use crate::TypeFault;
use aen_base::{IntTy, Num, Span, num};
use core_ty::{Ty, TyNode};
use type_rules::KindOfFault;

/// The type of a literal: its suffix, the expected integer type, or `i32`.
fn literal_type(written: Option<IntTy>, expected: Option<&Ty>) -> IntTy
    ensures { result ≡ spec.literal_type (suffix written) (option_copied expected.entry) }
{
    if let Some(ty) = written {
        return ty;
    }
    match expected {
        Some(ty) => expected_type(ty),
        None => IntTy::I32,
    }
}

/// The type of a literal without a suffix where this type is expected.
fn expected_type(ty: &Ty) -> IntTy
    ensures { result ≡ spec.literal_type no_suffix (Some ty.now) }
{
    match &ty.node {
        TyNode::Int(ty) => *ty,
        _ => IntTy::I32,
    }
}

/// Whether another type is expected than this integer type.
fn is_other_type(ty: IntTy, expected: Option<&Ty>) -> bool
    ensures { result ≡ spec.is_other_type ty (option_copied expected.entry) }
{
    match expected {
        Some(expected) => !is_type(ty, expected),
        None => false,
    }
}

/// Whether it is this integer type.
fn is_type(ty: IntTy, expected: &Ty) -> bool
    ensures { result ≡ same expected.now (t.int ty) }
{
    match &expected.node {
        TyNode::Int(other) => *other == ty,
        _ => false,
    }
}

/// The number of a literal, where this type, or any, is expected. At fault where its type is another,
/// or where it is outside its type.
#[tactic(auto, unfolding(type_rules::specs::Literals::literal))]
pub fn literal(
    span: Span,
    negative: bool,
    magnitude: u128,
    written: Option<IntTy>,
    expected: Option<&Ty>,
) -> Result<Num, TypeFault>
    ensures { Answers (spec.literal span negative magnitude (suffix written) (option_copied expected.entry)) result }
{
    let ty = literal_type(written, expected);
    if is_other_type(ty, expected) {
        return Err(TypeFault::At(span, KindOfFault::Mismatch));
    }
    match num(ty, negative, magnitude) {
        Some(number) => Ok(number),
        None => Err(TypeFault::At(span, KindOfFault::LiteralRange)),
    }
}
