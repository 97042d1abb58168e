//! What definitions are for, as the keys of a table.

ghost use Rattle.std.specs.Prelude.{◌≡◌};
ghost use Rattle.text_names.specs.Kinds as spec;

use pure_ast::DefKind;
use raw_meaning::DefinitionHead;

/// What a definition is for, as the key of a table: its function, its loop, and its region or class.
#[derive(Clone, Copy, Debug, PartialEq, Eq, Hash)]
pub(crate) struct KindKey {
    pub(crate) function: u32,
    pub(crate) turn: Option<u32>,
    pub(crate) back: Option<u32>,
}

impl KindKey {
    /// The key of a definition's kind.
    pub(crate) fn of(kind: &DefKind) -> KindKey
        ensures { result ≡ spec.key_of kind.now }
    {
        match kind {
            DefKind::Forward(f) => key(f.0, None, None),
            DefKind::Back(f, r) => key(f.0, None, Some(r.0)),
            DefKind::Loop(f, k) => key(f.0, Some(k.0), None),
            DefKind::LoopBack(f, k, c) => key(f.0, Some(k.0), Some(*c)),
        }
    }
}

/// The key with these parts.
fn key(function: u32, turn: Option<u32>, back: Option<u32>) -> KindKey
    ensures { result ≡ spec.key function turn back }
{
    KindKey {
        function,
        turn,
        back,
    }
}

/// What is of a definition's kind.
pub(crate) trait Kinded {
    ghost use Rattle.text_names.specs.declared.kind_key.KindKey.{KindKey};

    /// The kind's key.
    ghost key_of: { Self → KindKey };

    /// The kind's key.
    fn key(&self) -> KindKey
        ensures { result ≡ key_of self.now };
}

impl Kinded for DefKind {
    ghost key_of = { spec.key_of };

    fn key(&self) -> KindKey {
        KindKey::of(self)
    }
}

impl Kinded for DefinitionHead {
    ghost key_of = { spec.head_key };

    fn key(&self) -> KindKey {
        KindKey::of(&self.kind)
    }
}
