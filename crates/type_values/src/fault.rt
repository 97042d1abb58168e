ghost use Rattle.std.specs.Prelude.{◌≡◌};

use aen_base::{NoMem, Span, Which};
use region_sigs::RegionFault;
use thiserror::Error;
use type_rules::KindOfFault;

/// Why a program isn't typed.
#[derive(Clone, Copy, Debug, PartialEq, Eq, Error)]
pub enum TypeFault {
    /// It is at fault there.
    #[error("fault")]
    At(Span, KindOfFault),
    /// A count passes its limit; the limit plus one.
    #[error("limit")]
    Limit(Which, u64),
    /// Want of memory. It may come at any program.
    #[error("out of memory")]
    Memory,
}

impl From<NoMem> for TypeFault {
    ghost use Rattle.type_values.specs.declared.fault.TypeFault.TheVariants.{Memory};

    ghost from_gives = { λ _ e. e ≡ Memory };

    fn from(_: NoMem) -> TypeFault {
        TypeFault::Memory
    }
}

impl From<RegionFault> for TypeFault {
    ghost use Rattle.type_values.specs.AsTypeFault.{as_type_fault};

    ghost from_gives = { λ fault e. e ≡ as_type_fault fault };

    fn from(fault: RegionFault) -> TypeFault {
        match fault {
            RegionFault::NoRegion(span) => TypeFault::At(span, KindOfFault::NoRegion),
            RegionFault::NestedBorrow(span) => TypeFault::At(span, KindOfFault::NestedBorrow),
            RegionFault::Arity(span) => TypeFault::At(span, KindOfFault::Arity),
            RegionFault::Limit(which, count) => TypeFault::Limit(which, count),
            RegionFault::Memory => TypeFault::Memory,
        }
    }
}
