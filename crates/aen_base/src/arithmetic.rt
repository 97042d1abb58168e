ghost use Rattle.std.specs.Prelude.{◌≡◌, false, MatchOption};
ghost use Rattle.aen_base.specs.Arithmetic as spec;
ghost use Rattle.aen_base.specs.Operators.{is_shift};
ghost use Rattle.aen_base.specs.Wholes.{whole};

use crate::bitwise::{and, or, shift_left, shift_right, xor};
use crate::whole::Whole;
use crate::{BinOp, IntTy, Num, PanicKind, num};

/// An operator on two numbers, exact: the result, or why it panics. `Overflow` comes exactly where
/// the result isn't in the type's range, or the right side of a shift is negative or not below the
/// type's width; `DivideByZero` exactly where the divisor of `/` or `%` is 0. Both numbers have
/// one type, except for shifts.
pub fn checked(op: BinOp, a: Num, b: Num) -> Result<Num, PanicKind>
    requires { is_shift op ≡ false → a.ty ≡ b.ty }
    ensures { result ≡ spec.apply op a.ty a.value b.value }
{
    match op {
        BinOp::Add => add(a, b),
        BinOp::Sub => subtract(a, b),
        BinOp::Mul => multiply(a, b),
        BinOp::Div => divide(a, b),
        BinOp::Rem => remainder(a, b),
        BinOp::Shl => shift_left(a, b),
        BinOp::Shr => shift_right(a, b),
        BinOp::And => Ok(and(a, b)),
        BinOp::Or => Ok(or(a, b)),
        BinOp::Xor => Ok(xor(a, b)),
    }
}

/// Unary minus, exact: `Overflow` exactly where the result isn't in the type's range, which is at
/// the least value of a signed type, and at any number but 0 of an unsigned one.
pub fn negate(a: Num) -> Result<Num, PanicKind>
    ensures { result ≡ spec.negated a.ty a.value }
{
    keep(a.ty(), Some(a.whole().negated()))
}

/// A result that must be in its type's range.
fn keep(ty: IntTy, exact: Option<Whole>) -> Result<Num, PanicKind>
    ensures { MatchOption exact (result ≡ Err PanicKind.Overflow) (λ w. result ≡ spec.kept ty (whole w)) }
{
    let Some(exact) = exact else {
        return Err(PanicKind::Overflow);
    };
    match num(ty, exact.neg, exact.mag) {
        Some(result) => Ok(result),
        None => Err(PanicKind::Overflow),
    }
}

#[tactic(auto, using(crate::proofs::Results::kept_large))]
fn add(a: Num, b: Num) -> Result<Num, PanicKind>
    ensures { result ≡ spec.apply BinOp.Add a.ty a.value b.value }
{
    keep(a.ty(), a.whole().plus(b.whole()))
}

#[tactic(auto, using(crate::proofs::Results::kept_large))]
fn subtract(a: Num, b: Num) -> Result<Num, PanicKind>
    ensures { result ≡ spec.apply BinOp.Sub a.ty a.value b.value }
{
    keep(a.ty(), a.whole().plus(b.whole().negated()))
}

#[tactic(auto, using(crate::proofs::Results::kept_large))]
fn multiply(a: Num, b: Num) -> Result<Num, PanicKind>
    ensures { result ≡ spec.apply BinOp.Mul a.ty a.value b.value }
{
    keep(a.ty(), a.whole().times(b.whole()))
}

fn divide(a: Num, b: Num) -> Result<Num, PanicKind>
    ensures { result ≡ spec.apply BinOp.Div a.ty a.value b.value }
{
    let divisor = b.whole();
    if divisor.mag == 0 {
        return Err(PanicKind::DivideByZero);
    }
    keep(a.ty(), Some(a.whole().quotient(divisor)))
}

/// The remainder; it panics where the quotient does.
fn remainder(a: Num, b: Num) -> Result<Num, PanicKind>
    ensures { result ≡ spec.apply BinOp.Rem a.ty a.value b.value }
{
    divide(a, b)?;
    let rest = a.whole().remainder(b.whole());
    Ok(Num::new(a.ty(), rest.neg, rest.mag))
}
