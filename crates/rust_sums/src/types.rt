//! Types that are `u32`.

ghost use Rattle.std.specs.Prelude.{◌≡◌};
ghost use Rattle.std.specs.List.{list_all};
ghost use Rattle.rust_ast.specs.Patterns as patterns;
ghost use Rattle.rust_ast.specs.Written.{maybewritten};
ghost use Rattle.rust_sums.specs.Gets.{Gets};
ghost use Rattle.rust_sums.specs.Sums as spec;

use crate::SumsFault;
use aen_base::IntTy;
use rust_ast::written::{Written, WrittenNode};

/// Whether a written type is `u32`.
pub(crate) fn is_u32(ty: &Written) -> bool
    ensures { result ≡ spec.is_u32 ty.now }
{
    match &ty.node {
        WrittenNode::Int(_, int) => *int == IntTy::U32,
        WrittenNode::Bool(_)
        | WrittenNode::Unit(_)
        | WrittenNode::Tuple(_, _)
        | WrittenNode::Ref(_, _, _, _)
        | WrittenNode::Boxed(_, _)
        | WrittenNode::Named(_, _, _)
        | WrittenNode::Param(_, _, _) => false,
    }
}

/// Whether all these are `u32`.
pub(crate) fn are_u32(types: &[Written]) -> bool
    ensures { result ≡ list_all spec.is_u32 types.now }
{
    for ty in types {
        if !is_u32(ty) {
            return false;
        }
    }
    true
}

/// Whether a type is written and `u32`.
pub(crate) fn gives_u32(ty: &Option<Written>) -> bool
    ensures { result ≡ spec.gives_u32 ty.now }
{
    match ty {
        None => false,
        Some(ty) => is_u32(ty),
    }
}

/// Whether a type is written, which is then `u32`. `Outside` exactly where it is another.
pub(crate) fn expected_by(ty: &Option<Written>) -> Result<bool, SumsFault>
    ensures { Gets (spec.expected_by (maybewritten ty.now)) result }
{
    match ty {
        None => Ok(false),
        Some(ty) => {
            if is_u32(ty) {
                Ok(true)
            } else {
                Err(SumsFault::Outside)
            }
        }
    }
}

/// The type of a literal with this suffix.
fn literal_type(expected: bool, suffix: Option<IntTy>) -> IntTy
    ensures { result ≡ spec.literal_type expected (patterns.suffix suffix) }
{
    match suffix {
        Some(ty) => ty,
        None if expected => IntTy::U32,
        None => IntTy::I32,
    }
}

/// Whether a literal, without its sign, has type `u32`.
pub(crate) fn is_u32_typed(expected: bool, suffix: Option<IntTy>) -> bool
    ensures { result ≡ spec.is_u32_typed expected (patterns.suffix suffix) }
{
    literal_type(expected, suffix) == IntTy::U32
}
