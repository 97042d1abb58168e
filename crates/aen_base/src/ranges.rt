//! The ranges of the integer types.

ghost use Rattle.std.specs.Prelude.{◌≡◌, ◌+◌, ◌-◌, ◌^◌, if◌then◌else◌};
ghost use Rattle.aen_base.specs.Numbers as spec;
ghost use Rattle.aen_base.specs.Arithmetic.{number};

use crate::{IntTy, Num};

impl IntTy {
    /// The number of bits.
    pub fn width(self) -> u32
        ensures { result ≡ spec.width self }
    {
        match self {
            IntTy::U8 | IntTy::I8 => 8,
            IntTy::U16 | IntTy::I16 => 16,
            IntTy::U32 | IntTy::I32 => 32,
            IntTy::U64 | IntTy::I64 | IntTy::Usize | IntTy::Isize => 64,
            IntTy::U128 | IntTy::I128 => 128,
        }
    }

    /// Whether the type has negative numbers.
    pub fn is_signed(self) -> bool
        ensures { result ≡ spec.is_signed self }
    {
        match self {
            IntTy::U8 | IntTy::U16 | IntTy::U32 | IntTy::U64 | IntTy::U128 | IntTy::Usize => false,
            IntTy::I8 | IntTy::I16 | IntTy::I32 | IntTy::I64 | IntTy::I128 | IntTy::Isize => true,
        }
    }

    /// The greatest number of the type.
    #[tactic(auto, unfolding(crate::specs::Numbers::limit))]
    pub(crate) fn greatest(self) -> u128
        ensures { result + 1 ≡ spec.limit self }
    {
        match self {
            IntTy::U8 => 0xff,
            IntTy::U16 => 0xffff,
            IntTy::U32 => 0xffff_ffff,
            IntTy::U64 | IntTy::Usize => 0xffff_ffff_ffff_ffff,
            IntTy::U128 => 0xffff_ffff_ffff_ffff_ffff_ffff_ffff_ffff,
            IntTy::I8 => 0x7f,
            IntTy::I16 => 0x7fff,
            IntTy::I32 => 0x7fff_ffff,
            IntTy::I64 | IntTy::Isize => 0x7fff_ffff_ffff_ffff,
            IntTy::I128 => 0x7fff_ffff_ffff_ffff_ffff_ffff_ffff_ffff,
        }
    }

    /// The magnitude of the least number of the type.
    #[tactic(auto, unfolding(crate::specs::Numbers::limit, crate::specs::Numbers::depth))]
    pub(crate) fn deepest(self) -> u128
        ensures { result ≡ spec.depth self }
    {
        if self.is_signed() {
            self.greatest() + 1
        } else {
            0
        }
    }

    /// The number all of whose bits are set, as many as the type has.
    #[tactic(auto, using(crate::proofs::Sizes::sizes, crate::proofs::Sizes::most))]
    pub(crate) fn mask(self) -> u128
        ensures { result ≡ 2 ^ spec.width self - 1 }
    {
        self.greatest() + self.deepest()
    }

    /// Whether the number with this sign and magnitude is in the type's range.
    fn fits(self, neg: bool, mag: u128) -> bool
        ensures { result ≡ spec.in_range self (spec.signed neg mag) }
    {
        if neg {
            mag <= self.deepest()
        } else {
            mag <= self.greatest()
        }
    }
}

/// The number of this type with this sign and magnitude; None exactly where it isn't in the
/// type's range. Zero may be given with either sign.
pub fn num(ty: IntTy, neg: bool, mag: u128) -> Option<Num>
    ensures { result ≡ (if spec.in_range ty (spec.signed neg mag) then Some (number ty (spec.signed neg mag)) else None) }
{
    if ty.fits(neg, mag) {
        Some(Num::new(ty, neg, mag))
    } else {
        None
    }
}
