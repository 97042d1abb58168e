//! Integers as they are spelled.

ghost use Rattle.std.specs.Prelude.{◌≡◌, ◌≤◌, ◌<◌, ◌^◌, length, MatchOption, true, nat_lt, if◌then◌else◌, Some, None};
ghost use Rattle.std.specs.Char as char;
ghost use Rattle.rust_lex.specs.Characters.{begins, front, back};
ghost use Rattle.rust_lex.specs.Numbers as spec;
ghost use Rattle.rust_lex.specs.Scan as scan;
ghost use Rattle.rust_lex.specs.Words as spec_words;

use crate::characters::{after, before, begins_two};
use crate::words::{int_named, suffix_at};
use crate::{Base, Integer};
use aen_base::IntTy;

impl Base {
    /// How many digits the base has.
    pub fn radix(self) -> u32
        ensures { result ≡ spec.radix self }
    {
        match self {
            Base::Binary => 2,
            Base::Octal => 8,
            Base::Decimal => 10,
            Base::Hexadecimal => 16,
        }
    }

    /// The length of the prefix that tells the base.
    fn prefix_length(self) -> usize
        ensures { result ≡ spec.prefix_length self }
    {
        match self {
            Base::Decimal => 0,
            _ => 2,
        }
    }
}

/// The base that the first bytes tell.
pub(crate) fn base_of(bytes: &[u8]) -> Base
    ensures is { result ≡ spec.base_of bytes.now }
    ensures within { spec.prefix_length result ≤ length bytes.now }
{
    if begins_two(b'0', b'x', bytes) {
        Base::Hexadecimal
    } else if begins_two(b'0', b'o', bytes) {
        Base::Octal
    } else if begins_two(b'0', b'b', bytes) {
        Base::Binary
    } else {
        Base::Decimal
    }
}

/// The value of a digit or a letter; 36 for any other byte.
fn digit_value(c: u8) -> u32
    ensures { result ≡ char.digit_value c }
{
    match c {
        b'0'..=b'9' => (c - b'0') as u32,
        b'A'..=b'Z' => (c - b'A') as u32 + 10,
        b'a'..=b'z' => (c - b'a') as u32 + 10,
        _ => 36,
    }
}

/// Whether a byte is a digit of a base.
fn is_digit_of(base: Base, c: u8) -> bool
    ensures { result ≡ spec.is_digit_of base c }
{
    digit_value(c) < base.radix()
}

/// Whether a byte may stand after the first digit.
fn goes_on(base: Base, c: u8) -> bool
    ensures { result ≡ spec.goes_on base c }
{
    is_digit_of(base, c) || c == b'_'
}

/// Whether a digit of the base stands first.
fn begins_digit(base: Base, bytes: &[u8]) -> bool
    ensures { result ≡ begins (spec.is_digit_of base) bytes.now }
{
    match bytes {
        [c, ..] => is_digit_of(base, *c),
        [] => false,
    }
}

/// How many bytes first are digits of the base and `_`.
fn digits_length(base: Base, bytes: &[u8]) -> usize
    ensures { result ≡ length (front (spec.goes_on base) bytes.now) }
{
    let mut count = 0;
    for c in bytes {
        if !goes_on(base, *c) {
            return count;
        }
        count += 1;
    }
    count
}

/// How many bytes first are decimal digits.
fn decimals_length(bytes: &[u8]) -> usize
    ensures { result ≡ length (front char.is_ascii_digit bytes.now) }
{
    let mut count = 0;
    for c in bytes {
        if !c.is_ascii_digit() {
            return count;
        }
        count += 1;
    }
    count
}

/// The length of a suffix.
fn suffix_length(suffix: Option<IntTy>) -> usize
    ensures is { result ≡ scan.suffix_length suffix }
    ensures small { result ≤ 5 }
{
    match suffix {
        None => 0,
        Some(IntTy::U8 | IntTy::I8) => 2,
        Some(IntTy::U16 | IntTy::U32 | IntTy::U64 | IntTy::I16 | IntTy::I32 | IntTy::I64) => 3,
        Some(IntTy::U128 | IntTy::I128) => 4,
        Some(IntTy::Usize | IntTy::Isize) => 5,
    }
}

/// The length of the integer that stands first in bytes that begin with a digit.
#[tactic(auto, using(crate::proofs::FrontLemmas::drop_front, crate::proofs::FrontLemmas::front_length), unfolding(crate::specs::Scan::number_length))]
pub(crate) fn number_length(after_dot: bool, bytes: &[u8]) -> usize
    ensures { result ≡ scan.number_length after_dot bytes.now }
{
    if after_dot {
        return decimals_length(bytes);
    }
    let base = base_of(bytes);
    let prefix = base.prefix_length();
    let digits = after(bytes, prefix);
    if !begins_digit(base, digits) {
        return 1;
    }
    let count = digits_length(base, digits);
    let suffix = suffix_length(suffix_at(after(digits, count)));
    prefix + count + suffix
}

/// The number that one more digit makes of a number; `_` makes nothing; None from 2^128 on.
fn with_digit(number: u128, base: Base, c: u8) -> Option<u128>
    ensures { MatchOption result (2 ^ 128 ≤ scan.with_digit (spec.radix base) number c) (λ v. v ≡ scan.with_digit (spec.radix base) number c) }
{
    if c == b'_' {
        return Some(number);
    }
    let shifted = number.checked_mul(base.radix() as u128)?;
    shifted.checked_add(digit_value(c) as u128)
}

/// The number that digits and `_` write; None from 2^128 on.
fn value_of(base: Base, digits: &[u8]) -> Option<u128>
    ensures { MatchOption result (2 ^ 128 ≤ spec.value_in (spec.radix base) 0 digits.now) (λ v. v ≡ spec.value_in (spec.radix base) 0 digits.now) }
{
    let mut number = 0u128;
    for c in digits {
        let Some(next) = with_digit(number, base, *c) else {
            return None;
        };
        number = next;
    }
    Some(number)
}

/// The number that an integer's spelling means; None from 2^128 on.
#[tactic(auto, using(crate::proofs::FrontLemmas::take_front, crate::proofs::FrontLemmas::front_length), unfolding(crate::specs::Numbers::number_value))]
fn number_value(bytes: &[u8]) -> Option<u128>
    ensures { MatchOption result (2 ^ 128 ≤ spec.number_value bytes.now) (λ v. v ≡ spec.number_value bytes.now) }
{
    let base = base_of(bytes);
    let digits = after(bytes, base.prefix_length());
    let count = digits_length(base, digits);
    value_of(base, before(digits, count))
}

/// Whether an integer's spelling means a number below 2^128.
pub(crate) fn is_small(bytes: &[u8]) -> bool
    ensures { result ≡ spec.is_small bytes.now }
{
    match number_value(bytes) {
        Some(_) => true,
        None => false,
    }
}

/// Whether bytes are an integer's spelling.
#[tactic(auto, using(crate::proofs::FrontLemmas::drop_front, crate::proofs::FrontLemmas::front_length), unfolding(crate::specs::Numbers::is_number))]
fn is_number(bytes: &[u8]) -> bool
    ensures { result ≡ spec.is_number bytes.now }
{
    let base = base_of(bytes);
    let digits = after(bytes, base.prefix_length());
    if !begins_digit(base, digits) {
        return false;
    }
    is_suffix(after(digits, digits_length(base, digits)))
}

/// Whether bytes are nothing or an integer type's name.
fn is_suffix(bytes: &[u8]) -> bool
    ensures { result ≡ spec.is_suffix bytes.now }
{
    match bytes {
        [] => true,
        _ => int_named(bytes).is_some(),
    }
}

/// The suffix of an integer's spelling.
#[tactic(auto, using(crate::proofs::FrontLemmas::drop_front, crate::proofs::FrontLemmas::front_length))]
fn suffix_of(bytes: &[u8]) -> Option<IntTy>
    ensures { result ≡ spec_words.int_named (spec.suffix_of bytes.now) }
{
    let base = base_of(bytes);
    let digits = after(bytes, base.prefix_length());
    int_named(after(digits, digits_length(base, digits)))
}

/// The value and the suffix that an integer's spelling says; None exactly where the spelling is no
/// integer, or its value is 2^128 or more. It takes no memory.
pub fn integer(spelling: &str) -> Option<Integer>
    ensures { result ≡ spec.integer_of spelling.now }
{
    let bytes = spelling.as_bytes();
    if !is_number(bytes) {
        return None;
    }
    let value = number_value(bytes)?;
    Some(Integer {
        value,
        suffix: suffix_of(bytes),
    })
}
