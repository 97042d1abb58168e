//! Exact arithmetic on whole numbers without a type.

ghost use Rattle.std.specs.Prelude.{◌≡◌, ◌<◌, ◌+ℤ◌, ◌-ℤ◌, ◌*ℤ◌, neg_ℤ, int_div, int_rem, int_lt};
ghost use Rattle.std.specs.Ordering.{int_eq};
ghost use Rattle.aen_base.specs.Wholes.{whole, IsExact};

/// A whole number as its sign and its magnitude. Zero may bear either sign.
#[derive(Clone, Copy, Debug)]
pub(crate) struct Whole {
    pub(crate) neg: bool,
    pub(crate) mag: u128,
}

impl Whole {
    /// The number of this sign and magnitude.
    pub(crate) fn new(neg: bool, mag: u128) -> Whole
        ensures { result ≡ record { neg = neg; mag = mag } }
    {
        Whole { neg, mag }
    }

    /// The number with the other sign.
    pub(crate) fn negated(self) -> Whole
        ensures { whole result ≡ neg_ℤ (whole self) }
    {
        Whole::new(!self.neg, self.mag)
    }

    /// The sum; None exactly where its magnitude has more than 128 bits.
    pub(crate) fn plus(self, other: Whole) -> Option<Whole>
        ensures { IsExact result (whole self +ℤ whole other) }
    {
        if self.neg == other.neg {
            let mag = self.mag.checked_add(other.mag)?;
            Some(Whole::new(self.neg, mag))
        } else if self.mag < other.mag {
            Some(Whole::new(other.neg, other.mag - self.mag))
        } else {
            Some(Whole::new(self.neg, self.mag - other.mag))
        }
    }

    /// The product; None exactly where its magnitude has more than 128 bits.
    pub(crate) fn times(self, other: Whole) -> Option<Whole>
        ensures { IsExact result (whole self *ℤ whole other) }
    {
        let mag = self.mag.checked_mul(other.mag)?;
        Some(Whole::new(self.neg != other.neg, mag))
    }

    /// The quotient, truncated toward zero.
    pub(crate) fn quotient(self, other: Whole) -> Whole
        requires { 0 < other.mag }
        ensures { whole result ≡ int_div (whole self) (whole other) }
    {
        Whole::new(self.neg != other.neg, self.mag / other.mag)
    }

    /// The remainder, with the sign of the left side.
    pub(crate) fn remainder(self, other: Whole) -> Whole
        requires { 0 < other.mag }
        ensures { whole result ≡ int_rem (whole self) (whole other) }
    {
        Whole::new(self.neg, self.mag % other.mag)
    }

    /// Whether this number is less than the other.
    pub(crate) fn is_less(self, other: Whole) -> bool
        ensures { result ≡ int_lt (whole self) (whole other) }
    {
        match (self.neg, other.neg) {
            (false, false) => self.mag < other.mag,
            (true, true) => other.mag < self.mag,
            (true, false) => self.mag != 0 || other.mag != 0,
            (false, true) => false,
        }
    }

    /// Whether both are one number.
    pub(crate) fn is_same(self, other: Whole) -> bool
        ensures { result ≡ int_eq (whole self) (whole other) }
    {
        self.mag == other.mag && (self.neg == other.neg || self.mag == 0)
    }
}
