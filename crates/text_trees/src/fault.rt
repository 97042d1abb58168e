use aen_base::{NoMem, Span};

/// Why a text as it is spelled stands for no definitions.
#[derive(Clone, Copy, Debug, PartialEq, Eq)]
pub enum SettleFault {
    /// A rule beside the grammar is broken, there first.
    Broken(Span),
    /// Out of memory. It may come at any text.
    Memory,
}

impl From<NoMem> for SettleFault {
    ghost use Rattle.std.specs.Prelude.{◌≡◌};
    ghost use Rattle.text_trees.specs.declared.fault.SettleFault.TheVariants.{Memory};

    ghost from_gives = { λ _ e. e ≡ Memory };

    fn from(_: NoMem) -> SettleFault {
        SettleFault::Memory
    }
}

impl From<Span> for SettleFault {
    ghost use Rattle.std.specs.Prelude.{◌≡◌};
    ghost use Rattle.text_trees.specs.declared.fault.SettleFault.TheVariants.{Broken};

    ghost from_gives = { λ place e. e ≡ Broken place };

    fn from(place: Span) -> SettleFault {
        SettleFault::Broken(place)
    }
}
