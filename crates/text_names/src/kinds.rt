//! The kinds of definitions that were declared.

ghost use Rattle.std.specs.Prelude.{◌≡◌, [], ◌∷◌, ◌++◌, IfOk};
ghost use Rattle.raw_meaning.specs.Rules as rule;

use crate::by_kind::ByKind;
use crate::kind_key::KindKey;
use aen_base::NoMem;
use pure_ast::DefKind;
use std::alloc::Global;
use std::marker::Model;

/// The kinds of the definitions that were declared, as a set: contracts see them in order.
#[derive(Drop)]
pub struct Kinds {
    kinds: ByKind<DefKind>,
}

impl Model for Kinds {
    ghost use Rattle.std.specs.Prelude.{List};
    ghost use Rattle.std.specs.Coded.{coded_list};
    ghost use Rattle.pure_ast.specs.declared.def.DefKind.{DefKind};
    ghost use Rattle.pure_ast.specs.contracts.def.DefKind as kind;

    ghost Value = { List DefKind };

    ghost coded = { coded_list kind.the_row.coded };

    ghost view = { λ s. s.kinds };
}

impl Kinds {
    /// No definition was declared.
    pub fn new(alloc: Global) -> Kinds
        ensures { result ≡ [] }
    {
        Kinds {
            kinds: ByKind::empty(alloc),
        }
    }

    /// With one more kind. The only error is want of memory.
    pub fn with(self, kind: DefKind) -> Result<Kinds, NoMem>
        ensures { IfOk result (λ ks. ks ≡ self ++ kind ∷ []) }
    {
        let Kinds { kinds } = self;
        Ok(Kinds {
            kinds: kinds.with(kind)?,
        })
    }

    /// Whether a definition of this kind was declared.
    #[tactic(auto, using(crate::proofs::Keys::among_by_key))]
    pub fn contains(&self, kind: &DefKind) -> bool
        ensures { result ≡ rule.is_among self.now kind.now }
    {
        self.kinds.place_of(KindKey::of(kind)).is_some()
    }
}
