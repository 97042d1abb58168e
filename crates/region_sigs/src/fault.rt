ghost use Rattle.std.specs.Prelude.{◌≡◌};

use aen_base::{NoMem, Span, Which};
use thiserror::Error;

/// Why a declaration or a signature isn't typed.
#[derive(Clone, Copy, Debug, PartialEq, Eq, Error)]
pub enum RegionFault {
    /// The reference there has a lifetime that isn't declared, or an elided one that no parameter
    /// gives.
    #[error("no region")]
    NoRegion(Span),
    /// The reference there stands in a declared type, `Box`, type argument or reference.
    #[error("nested borrow")]
    NestedBorrow(Span),
    /// The type there has a wrong number of arguments.
    #[error("arity")]
    Arity(Span),
    /// A count passes its limit; the limit plus one.
    #[error("limit")]
    Limit(Which, u64),
    /// Want of memory. It may come at any program.
    #[error("out of memory")]
    Memory,
}

impl From<NoMem> for RegionFault {
    ghost use Rattle.region_sigs.specs.declared.fault.RegionFault.TheVariants.{Memory};

    ghost from_gives = { λ _ e. e ≡ Memory };

    fn from(_: NoMem) -> RegionFault {
        RegionFault::Memory
    }
}
