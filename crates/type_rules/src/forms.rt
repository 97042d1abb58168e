// Made by tools/code.py from tools/type_rules.desc.py.
use core_ty::Ty;
use rust_ast::spelled::{Place, Val};
use std::marker::Model;

/// What is expected of an expression.
pub struct Expected {
    pub node: ExpectedNode,
}

impl Drop for Expected {
    fn drop(self) {
        let Expected { node: _ } = self;
    }
}

/// The forms of `Expected`.
#[derive(Drop)]
pub enum ExpectedNode {
    /// Nothing.
    None,
    /// A type that its own is compared with.
    Hint(Ty),
    /// A type where a reference may be expected, so that reborrows are written out.
    Want(Ty),
}

/// What an expression is.
pub struct Raw {
    pub node: RawNode,
}

impl Drop for Raw {
    fn drop(self) {
        let Raw { node: _ } = self;
    }
}

/// The forms of `Raw`.
#[derive(Drop)]
pub enum RawNode {
    /// A place, with its type and whether it may be written.
    Stands(Place, Ty, bool),
    /// A value.
    Held(Val),
}

impl Model for Expected {
    ghost use Rattle.type_rules.specs.Forms.{Expected, coded_expected};

    ghost Value = { Expected };

    ghost coded = { coded_expected };

    ghost use Rattle.type_rules.specs.FormsView.{expected_of};

    ghost view = { λ e. expected_of e.node };
}

impl Expected {
    ghost use Rattle.std.specs.Prelude.{◌≡◌};
    ghost use Rattle.type_rules.specs.FormsView.{expected_of};

    /// The form, taken out.
    pub fn into_node(self) -> ExpectedNode
        ensures { expected_of result ≡ self }
    {
        let Expected { node } = self;
        node
    }
}

impl Model for Raw {
    ghost use Rattle.type_rules.specs.Forms.{Raw, coded_raw};

    ghost Value = { Raw };

    ghost coded = { coded_raw };

    ghost use Rattle.type_rules.specs.FormsView.{raw_of};

    ghost view = { λ e. raw_of e.node };
}

impl Raw {
    ghost use Rattle.std.specs.Prelude.{◌≡◌};
    ghost use Rattle.type_rules.specs.FormsView.{raw_of};

    /// The form, taken out.
    pub fn into_node(self) -> RawNode
        ensures { raw_of result ≡ self }
    {
        let Raw { node } = self;
        node
    }
}
