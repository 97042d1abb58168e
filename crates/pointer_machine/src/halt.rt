use aen_base::{NoMem, PanicKind, Span};

/// Why running comes to no value.
#[derive(Clone, Copy, Debug)]
pub(crate) enum Halt {
    /// A panic, for this reason.
    Panic(PanicKind),
    /// The bound was too small.
    More,
    /// What stands there has no meaning.
    Stuck(Span),
}

/// Why running ends early.
#[derive(Clone, Copy, Debug)]
pub(crate) enum Stop {
    /// The source comes to no value.
    Halted(Halt),
    /// Want of memory.
    Memory,
}

impl From<NoMem> for Stop {
    ghost use Rattle.std.specs.Prelude.{◌≡◌};
    ghost use Rattle.pointer_machine.specs.declared.halt.Stop.TheVariants.{Memory};

    ghost from_gives = { λ _ e. e ≡ Memory };

    fn from(_: NoMem) -> Stop {
        Stop::Memory
    }
}
