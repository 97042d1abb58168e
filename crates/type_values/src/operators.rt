//! Which types operators take.
ghost use Rattle.std.specs.Prelude.{◌≡◌};
ghost use Rattle.type_rules.specs.Operators as spec;

use crate::type_facts::{is_integer, is_integer_or_bool};
use aen_base::{BinOp, CmpOp};
use core_ty::Ty;

/// Whether the operator is a shift.
pub fn is_shift(op: BinOp) -> bool
    ensures { result ≡ spec.is_shift op }
{
    match op {
        BinOp::Shl | BinOp::Shr => true,
        _ => false,
    }
}

/// Whether the operator takes the type.
pub fn takes_type(op: BinOp, ty: &Ty) -> bool
    ensures { result ≡ spec.takes_type op ty.now }
{
    match op {
        BinOp::And | BinOp::Or | BinOp::Xor => is_integer_or_bool(ty),
        _ => is_integer(ty),
    }
}

/// Whether the comparison takes the type.
pub fn compares_type(op: CmpOp, ty: &Ty) -> bool
    ensures { result ≡ spec.compares_type op ty.now }
{
    match op {
        CmpOp::Eq | CmpOp::Ne => is_integer_or_bool(ty),
        _ => is_integer(ty),
    }
}
