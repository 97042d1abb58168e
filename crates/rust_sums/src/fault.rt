ghost use Rattle.std.specs.Prelude.{◌≡◌};

use aen_base::NoMem;
use thiserror::Error;

/// Why a resolved program gives no program of sums.
#[derive(Clone, Copy, Debug, PartialEq, Eq, Error)]
pub enum SumsFault {
    /// It is none.
    #[error("outside")]
    Outside,
    /// Want of memory. It may come at any program.
    #[error("out of memory")]
    Memory,
}

impl From<NoMem> for SumsFault {
    ghost use Rattle.rust_sums.specs.declared.fault.SumsFault.TheVariants.{Memory};

    ghost from_gives = { λ _ e. e ≡ Memory };

    fn from(_: NoMem) -> SumsFault {
        SumsFault::Memory
    }
}
