ghost use Rattle.std.specs.Prelude.{◌≡◌};

use aen_base::{NoMem, Span, Which};
use thiserror::Error;

/// Why the names of a program aren't resolved.
#[derive(Clone, Copy, Debug, PartialEq, Eq, Error)]
pub enum NameFault {
    /// What is used there is declared nowhere.
    #[error("unknown")]
    Unknown(Span),
    /// Both places declare one name, the first of them first.
    #[error("twice")]
    Twice(Span, Span),
    /// A count passes its limit; the limit plus one.
    #[error("limit")]
    Limit(Which, u64),
    /// Want of memory. It may come at any program.
    #[error("out of memory")]
    Memory,
}

impl From<NoMem> for NameFault {
    ghost use Rattle.rust_names.specs.declared.fault.NameFault.TheVariants.{Memory};

    ghost from_gives = { λ _ e. e ≡ Memory };

    fn from(_: NoMem) -> NameFault {
        NameFault::Memory
    }
}
