ghost use Rattle.std.specs.Prelude.{◌≡◌, ◌<◌, true, unsigned_abs};
ghost use Rattle.aen_base.specs.Numbers as spec;
ghost use Rattle.aen_base.specs.Arithmetic.{number};
ghost use Rattle.aen_base.specs.Wholes.{whole};

use crate::IntTy;
use crate::whole::Whole;
use std::marker::Model;

/// An integer of one of the twelve types, always in its type's range, and never a negative zero.
/// Contracts see its type and a whole number, and `==` is equality of both.
#[derive(Clone, Copy, Debug, PartialEq, Eq)]
pub struct Num {
    ty: IntTy,
    neg: bool,
    mag: u128,
}

impl Model for Num {
    ghost use Rattle.std.specs.Prelude.{◌≡◌, ◌<◌, true, unsigned_abs};
    ghost use Rattle.aen_base.specs.Numbers.{Number, coded_number};

    ghost Value = { Number };

    ghost coded = { coded_number };

    ghost use Rattle.aen_base.specs.Numbers.{in_range, signed, is_negative};
    ghost use Rattle.aen_base.specs.NumFields.{signed-back};

    ghost view = { λ n. record { ty = n.ty; value = signed n.neg n.mag } };

    ghost invariant = { λ n. (in_range n.ty (signed n.neg n.mag) ≡ true) × (n.neg ≡ true → 0 < n.mag) };

    ghost inverse = { λ v. record { ty = v.ty; neg = is_negative v.value; mag = unsigned_abs v.value } };

    ghost inverse_ok = { λ a h. signed-back a.ty a.neg a.mag h.1 };
}

impl Num {
    /// The number of this type with this sign and magnitude, which is in range.
    pub(crate) fn new(ty: IntTy, neg: bool, mag: u128) -> Num
        requires { spec.in_range ty (spec.signed neg mag) ≡ true }
        ensures { result ≡ number ty (spec.signed neg mag) }
    {
        let neg = neg && mag != 0;
        Num { ty, neg, mag }
    }

    /// The number's type.
    pub fn ty(&self) -> IntTy
        ensures { result ≡ self.now.ty }
    {
        self.ty
    }

    /// Whether the number is below 0.
    pub fn is_negative(&self) -> bool
        ensures { result ≡ spec.is_negative self.now.value }
    {
        self.neg
    }

    /// The number without its sign.
    pub fn magnitude(&self) -> u128
        ensures { result ≡ unsigned_abs self.now.value }
    {
        self.mag
    }

    /// The number without its type.
    pub(crate) fn whole(&self) -> Whole
        ensures is { whole result ≡ self.now.value }
        ensures within { spec.in_range self.now.ty (whole result) ≡ true }
    {
        Whole::new(self.neg, self.mag)
    }
}
