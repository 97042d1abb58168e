ghost use Rattle.std.specs.Prelude.{◌≡◌};

use aen_base::{NoMem, Span, Which};
use thiserror::Error;

/// Why the tokens of a source give no program.
#[derive(Clone, Copy, Debug, PartialEq, Eq, Error)]
pub enum ReadFault {
    /// The first excluded word, before any lexical fault.
    #[error("unsupported")]
    Unsupported(Span),
    /// The first of the limits on nesting, depth and `else`, in this order, that is passed before any
    /// lexical fault, and the limit and one.
    #[error("limit")]
    Limit(Which, u64),
    /// The lexical fault or the first token such that no program's tokens begin with the tokens up to
    /// it, whichever stands first, or else the empty span at the text's end.
    #[error("syntax")]
    Syntax(Span),
    /// Want of memory. It may come at any source.
    #[error("out of memory")]
    Memory,
}

impl From<NoMem> for ReadFault {
    ghost use Rattle.rust_reader.specs.declared.fault.ReadFault.TheVariants.{Memory};

    ghost from_gives = { λ _ e. e ≡ Memory };

    fn from(_: NoMem) -> ReadFault {
        ReadFault::Memory
    }
}
