ghost use Rattle.std.specs.Prelude.{◌≡◌};

use aen_base::{NoMem, Span};
use std::alloc::{AllocError, AllocFailed};
use thiserror::Error;

/// Why a use isn't resolved.
#[derive(Clone, Copy, Debug, PartialEq, Eq, Error)]
pub enum Stop {
    /// It is declared nowhere.
    #[error("unknown")]
    Unknown(Span),
    /// Want of memory. It may come at any use.
    #[error("out of memory")]
    Memory,
}

impl From<NoMem> for Stop {
    ghost use Rattle.name_tables.specs.declared.fault.Stop.TheVariants.{Memory};

    ghost from_gives = { λ _ e. e ≡ Memory };

    fn from(_: NoMem) -> Stop {
        Stop::Memory
    }
}

impl From<AllocError> for Stop {
    ghost use Rattle.name_tables.specs.declared.fault.Stop.TheVariants.{Memory};

    ghost from_gives = { λ _ e. e ≡ Memory };

    fn from(_: AllocError) -> Stop {
        Stop::Memory
    }
}

impl<T: Drop> From<AllocFailed<T>> for Stop {
    ghost use Rattle.name_tables.specs.declared.fault.Stop.TheVariants.{Memory};

    ghost from_gives = { λ _ e. e ≡ Memory };

    fn from(_: AllocFailed<T>) -> Stop {
        Stop::Memory
    }
}
