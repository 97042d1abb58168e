//! Decimal numbers as they are written.

ghost use Rattle.std.specs.Prelude.{◌≡◌, ◌^◌};
ghost use Rattle.aen_base.specs.Decimals.{decimal_below, decimal_number};
ghost use Rattle.aen_base.specs.Digits.{narrowed, with_digit};

/// The number that digits write; None exactly where there is none, one is no digit, or the number
/// isn't below 2^128. It stops at the first digit that leads to 2^128 or above.
#[tactic(auto, using(crate::proofs::Digits::read_from_start))]
pub fn decimal(digits: &[u8]) -> Option<u128>
    ensures { result ≡ decimal_number digits.now }
{
    if digits.is_empty() {
        return None;
    }
    let mut value = 0u128;
    for digit in digits {
        match followed_by(value, *digit) {
            None => return None,
            Some(longer) => value = longer,
        }
    }
    Some(value)
}

/// The number that has one digit more; None where this is no digit, or the number isn't below
/// 2^128.
#[tactic(auto, unfolding(crate::specs::Digits::with_digit))]
fn followed_by(value: u128, digit: u8) -> Option<u128>
    ensures { result ≡ with_digit value digit }
{
    if !digit.is_ascii_digit() {
        return None;
    }
    let digit = u128::from(digit - b'0');
    if value > (u128::MAX - digit) / 10 {
        return None;
    }
    Some(value * 10 + digit)
}

/// The number below 2^32 that digits write; None exactly where there is none, one is no digit, or
/// the number isn't below 2^32.
#[tactic(auto, using(crate::proofs::Digits::narrower))]
pub fn decimal_u32(digits: &[u8]) -> Option<u32>
    ensures { result ≡ decimal_below (2 ^ 32) digits.now }
{
    match decimal(digits) {
        None => None,
        Some(value) => below_32_bits(value),
    }
}

/// A number below 2^32.
fn below_32_bits(value: u128) -> Option<u32>
    ensures { result ≡ narrowed value }
{
    if value > 0xffff_ffff {
        None
    } else {
        Some(value as u32)
    }
}
