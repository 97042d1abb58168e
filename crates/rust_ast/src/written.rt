// Made by tools/code.py from tools/rust_ast.desc.py.
use aen_base::{Boxed, IntTy, List, Span, TypeId};
use std::marker::Model;

/// The lifetime of a reference type.
pub struct Lifetime {
    pub node: LifetimeNode,
}

impl Drop for Lifetime {
    fn drop(self) {
        let Lifetime { node: _ } = self;
    }
}

/// The forms of `Lifetime`.
#[derive(Drop)]
pub enum LifetimeNode {
    /// None, or `'_`.
    Elided,
    /// A lifetime of the function, by its place.
    Declared(u32),
    /// A lifetime that the function doesn't declare.
    Undeclared,
}

/// The lists of type arguments that stand in one path.
pub struct Turbos {
    pub node: TurbosNode,
}

impl Drop for Turbos {
    fn drop(self) {
        let Turbos { node: _ } = self;
    }
}

/// The forms of `Turbos`.
#[derive(Drop)]
pub enum TurbosNode {
    /// None.
    NoTurbo,
    /// One list, wherever it stands.
    OneTurbo(List<Written>),
    /// One after each name.
    TwoTurbos(List<Written>, List<Written>),
}

/// A type as it is written. Each form begins with its span.
#[cycle(written)]
pub struct Written {
    pub node: WrittenNode,
}

impl Drop for Written {
    fn drop(self) {
        let Written { node } = self;
        match node {
            WrittenNode::Int(_, _) => {}
            WrittenNode::Bool(_) => {}
            WrittenNode::Unit(_) => {}
            WrittenNode::Tuple(_, _tuple) => {}
            WrittenNode::Ref(_, _, _, _) => {}
            WrittenNode::Boxed(_, _) => {}
            WrittenNode::Named(_, _, _named) => {}
            WrittenNode::Param(_, _, _param) => {}
        }
    }
}

/// The forms of `Written`.
#[cycle(written)]
#[derive(Drop)]
pub enum WrittenNode {
    /// An integer type.
    Int(Span, IntTy),
    /// `bool`.
    Bool(Span),
    /// `()`.
    Unit(Span),
    /// A tuple of these parts.
    Tuple(Span, List<Written>),
    /// A reference; true for `&mut`.
    Ref(Span, Lifetime, bool, Boxed<Written>),
    /// `Box` of a type.
    Boxed(Span, Boxed<Written>),
    /// A declared type with its arguments.
    Named(Span, TypeId, List<Written>),
    /// A type parameter of what the type stands in, by its place.
    Param(Span, u32, List<Written>),
}

impl Model for Lifetime {
    ghost use Rattle.rust_ast.specs.Written.{Lifetime, coded_lifetime};

    ghost Value = { Lifetime };

    ghost coded = { coded_lifetime };

    ghost use Rattle.rust_ast.specs.WrittenView.{lifetime_of};

    ghost view = { λ e. lifetime_of e.node };
}

impl Lifetime {
    ghost use Rattle.std.specs.Prelude.{◌≡◌};
    ghost use Rattle.rust_ast.specs.WrittenView.{lifetime_of};

    /// The form, taken out.
    pub fn into_node(self) -> LifetimeNode
        ensures { lifetime_of result ≡ self }
    {
        let Lifetime { node } = self;
        node
    }
}

impl Model for Turbos {
    ghost use Rattle.rust_ast.specs.Written.{Turbos, coded_turbos};

    ghost Value = { Turbos };

    ghost coded = { coded_turbos };

    ghost use Rattle.rust_ast.specs.WrittenView.{turbos_of};

    ghost view = { λ e. turbos_of e.node };
}

impl Turbos {
    ghost use Rattle.std.specs.Prelude.{◌≡◌};
    ghost use Rattle.rust_ast.specs.WrittenView.{turbos_of};

    /// The form, taken out.
    pub fn into_node(self) -> TurbosNode
        ensures { turbos_of result ≡ self }
    {
        let Turbos { node } = self;
        node
    }
}

impl Model for Written {
    ghost use Rattle.rust_ast.specs.Written.{Written, coded_written, nodes_written};

    ghost Value = { Written };

    ghost coded = { coded_written };

    ghost use Rattle.rust_ast.specs.WrittenView.{written_of};

    ghost view = { λ e. written_of e.node };

    ghost size = { nodes_written };

    ghost use Rattle.std.proofs.Common.{arith};
    ghost use Rattle.rust_ast.specs.WrittenFalls.{written_falls};

    ghost size_decreases = { λ a h. Prim.omega (arith, written_falls a.node) };
}

impl Written {
    ghost use Rattle.std.specs.Prelude.{◌≡◌};
    ghost use Rattle.rust_ast.specs.WrittenView.{written_of};

    /// The form, taken out.
    pub fn into_node(self) -> WrittenNode
        ensures { written_of result ≡ self }
    {
        let Written { node } = self;
        node
    }
}
