//! Numbers as their bits in two's complement.

ghost use Rattle.std.specs.Prelude.{◌≡◌, ◌<◌, ◌-◌, ◌*◌, ◌%◌, ◌^◌, pos, ◌*ℤ◌};
ghost use Rattle.aen_base.specs.Numbers.{width};
ghost use Rattle.aen_base.specs.Arithmetic as spec;
ghost use Rattle.aen_base.specs.Wholes.{whole, negated_low};

use crate::whole::Whole;
use crate::{IntTy, Num};

impl IntTy {
    /// The lowest bits of a number, given its sign and the lowest bits of its magnitude.
    fn with_sign(self, neg: bool, low: u128) -> u128
        requires { low < 2 ^ width self }
        ensures { result ≡ negated_low (width self) neg low }
    {
        if neg && low != 0 {
            self.mask() - low + 1
        } else {
            low
        }
    }

    /// As many of a number's lowest bits as the type has.
    pub(crate) fn bits_of(self, of: Whole) -> u128
        ensures { result ≡ spec.bits_of self (whole of) }
    {
        self.with_sign(of.neg, of.mag & self.mask())
    }

    /// The same of the number multiplied by 2 to the power of `places`.
    pub(crate) fn bits_left(self, of: Whole, places: u32) -> u128
        requires { places < width self }
        ensures { result ≡ spec.bits_of self (whole of *ℤ pos (2 ^ places)) }
    {
        self.with_sign(of.neg, (of.mag << places) & self.mask())
    }
}

impl Num {
    /// The number of this type that has these bits.
    pub(crate) fn of_bits(ty: IntTy, bits: u128) -> Num
        requires { bits < 2 ^ width ty }
        ensures { result ≡ spec.number ty (spec.of_bits ty bits) }
    {
        if bits <= ty.greatest() {
            Num::new(ty, false, bits)
        } else {
            Num::new(ty, true, ty.mask() - bits + 1)
        }
    }
}

impl Whole {
    /// The number divided by 2 to the power of `places`, rounded down: the sign is repeated.
    pub(crate) fn shifted_right(self, places: u32) -> Whole
        requires { places < 128 }
        ensures { whole result ≡ spec.shift_right (whole self) places }
    {
        if self.neg && self.mag != 0 {
            Whole::new(true, ((self.mag - 1) >> places) + 1)
        } else {
            Whole::new(false, self.mag >> places)
        }
    }
}
