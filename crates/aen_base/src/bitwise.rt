//! Operators that work on bits: shifts, `&`, `|`, `^`, `!` and casts.

ghost use Rattle.std.specs.Prelude.{◌≡◌, bit_and, bit_or, bit_xor, if◌then◌else◌, pos};
ghost use Rattle.aen_base.specs.Arithmetic as spec;
ghost use Rattle.aen_base.specs.Operators.{IsAmount};

use crate::{BinOp, IntTy, Num, PanicKind};

/// How far a number of type `ty` is shifted by `b`; None exactly where `b` is negative or not below
/// the type's width.
fn amount(ty: IntTy, b: Num) -> Option<u32>
    ensures { IsAmount ty b.value result }
{
    if b.is_negative() {
        return None;
    }
    let places = u32::try_from(b.magnitude()).ok()?;
    if places < ty.width() {
        Some(places)
    } else {
        None
    }
}

/// `a << b`. The low bits are kept.
pub(crate) fn shift_left(a: Num, b: Num) -> Result<Num, PanicKind>
    ensures { result ≡ spec.apply BinOp.Shl a.ty a.value b.value }
{
    let ty = a.ty();
    match amount(ty, b) {
        None => Err(PanicKind::Overflow),
        Some(places) => Ok(Num::of_bits(ty, ty.bits_left(a.whole(), places))),
    }
}

/// `a >> b`. The sign is repeated.
pub(crate) fn shift_right(a: Num, b: Num) -> Result<Num, PanicKind>
    ensures { result ≡ spec.apply BinOp.Shr a.ty a.value b.value }
{
    let ty = a.ty();
    match amount(ty, b) {
        None => Err(PanicKind::Overflow),
        Some(places) => {
            let shifted = a.whole().shifted_right(places);
            Ok(Num::new(ty, shifted.neg, shifted.mag))
        }
    }
}

/// `a & b`.
pub(crate) fn and(a: Num, b: Num) -> Num
    ensures { Ok result ≡ spec.apply BinOp.And a.ty a.value b.value }
{
    let ty = a.ty();
    Num::of_bits(ty, ty.bits_of(a.whole()) & ty.bits_of(b.whole()))
}

/// `a | b`.
pub(crate) fn or(a: Num, b: Num) -> Num
    ensures { Ok result ≡ spec.apply BinOp.Or a.ty a.value b.value }
{
    let ty = a.ty();
    Num::of_bits(ty, ty.bits_of(a.whole()) | ty.bits_of(b.whole()))
}

/// `a ^ b`.
pub(crate) fn xor(a: Num, b: Num) -> Num
    ensures { Ok result ≡ spec.apply BinOp.Xor a.ty a.value b.value }
{
    let ty = a.ty();
    Num::of_bits(ty, ty.bits_of(a.whole()) ^ ty.bits_of(b.whole()))
}

/// `!a`: every bit flipped.
pub fn invert(a: Num) -> Num
    ensures { result ≡ spec.number a.ty (spec.inverted a.ty a.value) }
{
    let ty = a.ty();
    Num::of_bits(ty, ty.mask() - ty.bits_of(a.whole()))
}

/// `a as to`: the low bits when narrowing, the sign of `a` repeated when widening.
pub fn cast(a: Num, to: IntTy) -> Num
    ensures { result ≡ spec.number to (spec.cast_to to a.value) }
{
    Num::of_bits(to, to.bits_of(a.whole()))
}

/// `b as to` for a bool: `true` is 1 and `false` is 0.
#[tactic(auto, using(crate::proofs::Results::zero_inside, crate::proofs::Results::one_inside))]
pub fn from_bool(b: bool, to: IntTy) -> Num
    ensures { result ≡ spec.number to (if b then pos 1 else pos 0) }
{
    if b {
        Num::new(to, false, 1)
    } else {
        Num::new(to, false, 0)
    }
}
