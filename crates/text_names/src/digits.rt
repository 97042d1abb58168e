//! Numbers as they are spelled: without leading zeros, and each sign for one number alone.

ghost use Rattle.std.specs.Prelude.{◌≡◌, ◌^◌};
ghost use Rattle.text_names.specs.Digits as digits_read;
ghost use Rattle.raw_meaning.specs.Numbers as spec;

use aen_base::{IntTy, Num, decimal, decimal_u32, num};

/// A decimal number below 2^32 without leading zeros.
#[tactic(auto, using(crate::proofs::Spelling::small_is), unfolding(crate::specs::Digits::written))]
pub(crate) fn small_number(digits: &[u8]) -> Option<u32>
    ensures { result ≡ spec.small_number digits.now }
{
    if is_padded(digits) {
        return None;
    }
    decimal_u32(digits)
}

/// The number of this type that digits write, perhaps after a minus.
#[tactic(auto, using(crate::proofs::Spelling::number_is))]
pub(crate) fn number_of(digits: &[u8], ty: IntTy) -> Option<Num>
    ensures { result ≡ spec.number_of digits.now ty }
{
    match digits {
        [] => None,
        [first, rest @ ..] => {
            if *first == b'-' {
                below_zero(rest, ty)
            } else {
                above_zero(digits, ty)
            }
        }
    }
}

/// The number of this type that digits write after a minus, which stands before no zero.
#[tactic(auto, unfolding(crate::specs::Digits::below_zero))]
fn below_zero(digits: &[u8], ty: IntTy) -> Option<Num>
    ensures { result ≡ digits_read.below_zero digits.now ty }
{
    match written(digits) {
        None => None,
        Some(value) => {
            if value == 0 {
                None
            } else {
                num(ty, true, value)
            }
        }
    }
}

/// The number of this type that digits write.
#[tactic(auto, unfolding(crate::specs::Digits::above_zero))]
fn above_zero(digits: &[u8], ty: IntTy) -> Option<Num>
    ensures { result ≡ digits_read.above_zero digits.now ty }
{
    match written(digits) {
        None => None,
        Some(value) => num(ty, false, value),
    }
}

/// The number below 2^128 that digits write without leading zeros.
#[tactic(auto, unfolding(crate::specs::Digits::written))]
fn written(digits: &[u8]) -> Option<u128>
    ensures { result ≡ digits_read.written (2 ^ 128) digits.now }
{
    if is_padded(digits) {
        return None;
    }
    decimal(digits)
}

/// Whether there is no digit, or a zero before others.
fn is_padded(digits: &[u8]) -> bool
    ensures { result ≡ digits_read.is_padded digits.now }
{
    match digits {
        [] => true,
        [_] => false,
        [first, ..] => *first == b'0',
    }
}
