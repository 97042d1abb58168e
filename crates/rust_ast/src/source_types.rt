// Made by tools/code.py from tools/rust_ast.desc.py.
use crate::Ident;
use aen_base::{Boxed, IntTy, List, Span};
use std::marker::Model;

/// The lifetime of a reference type.
pub struct Lifetime {
    pub node: LifetimeNode,
}

impl Drop for Lifetime {
    fn drop(self) {
        let Lifetime { node: _ } = self;
    }
}

/// The forms of `Lifetime`.
#[derive(Drop)]
pub enum LifetimeNode {
    /// None, or `'_`.
    Elided,
    /// A lifetime; its name begins with `'`.
    Lifetime(Ident),
}

/// Perhaps a list of type arguments, after `::`.
pub struct Turbo {
    pub node: TurboNode,
}

impl Drop for Turbo {
    fn drop(self) {
        let Turbo { node: _ } = self;
    }
}

/// The forms of `Turbo`.
#[derive(Drop)]
pub enum TurboNode {
    /// None.
    NoTurbo,
    /// The arguments.
    Turbo(List<Written>),
}

/// A path.
pub struct Path {
    pub node: PathNode,
}

impl Drop for Path {
    fn drop(self) {
        let Path { node: _ } = self;
    }
}

/// The forms of `Path`.
#[derive(Drop)]
pub enum PathNode {
    /// One name.
    One(Ident),
    /// Two names, with the first's type arguments.
    Two(Ident, Turbo, Ident),
    /// `Box::new`, with its span.
    BoxNew(Span),
    /// `mem::replace`, with its span, that of the word `mem`, and whether it stands after `std::`.
    MemReplace(Span, Span, bool),
    /// `mem::swap`, with its span, that of the word `mem`, and whether it stands after `std::`.
    MemSwap(Span, Span, bool),
}

/// A type as it is written. Each form begins with its span.
#[cycle(source_types)]
pub struct Written {
    pub node: WrittenNode,
}

impl Drop for Written {
    fn drop(self) {
        let Written { node } = self;
        match node {
            WrittenNode::Int(_, _) => {}
            WrittenNode::Bool(_) => {}
            WrittenNode::Unit(_) => {}
            WrittenNode::Tuple(_, _tuple) => {}
            WrittenNode::Ref(_, _, _, _) => {}
            WrittenNode::Boxed(_, _) => {}
            WrittenNode::Named(_, _, _named) => {}
        }
    }
}

/// The forms of `Written`.
#[cycle(source_types)]
#[derive(Drop)]
pub enum WrittenNode {
    /// An integer type.
    Int(Span, IntTy),
    /// `bool`.
    Bool(Span),
    /// `()`.
    Unit(Span),
    /// A tuple of these parts.
    Tuple(Span, List<Written>),
    /// A reference; true for `&mut`.
    Ref(Span, Lifetime, bool, Boxed<Written>),
    /// `Box` of a type.
    Boxed(Span, Boxed<Written>),
    /// A declared type or a type parameter, with arguments.
    Named(Span, Ident, List<Written>),
}

impl Model for Lifetime {
    ghost use Rattle.rust_ast.specs.SourceTypes.{Lifetime, coded_lifetime};

    ghost Value = { Lifetime };

    ghost coded = { coded_lifetime };

    ghost use Rattle.rust_ast.specs.SourceTypesView.{lifetime_of};

    ghost view = { λ e. lifetime_of e.node };
}

impl Lifetime {
    ghost use Rattle.std.specs.Prelude.{◌≡◌};
    ghost use Rattle.rust_ast.specs.SourceTypesView.{lifetime_of};

    /// The form, taken out.
    pub fn into_node(self) -> LifetimeNode
        ensures { lifetime_of result ≡ self }
    {
        let Lifetime { node } = self;
        node
    }
}

impl Model for Turbo {
    ghost use Rattle.rust_ast.specs.SourceTypes.{Turbo, coded_turbo};

    ghost Value = { Turbo };

    ghost coded = { coded_turbo };

    ghost use Rattle.rust_ast.specs.SourceTypesView.{turbo_of};

    ghost view = { λ e. turbo_of e.node };
}

impl Turbo {
    ghost use Rattle.std.specs.Prelude.{◌≡◌};
    ghost use Rattle.rust_ast.specs.SourceTypesView.{turbo_of};

    /// The form, taken out.
    pub fn into_node(self) -> TurboNode
        ensures { turbo_of result ≡ self }
    {
        let Turbo { node } = self;
        node
    }
}

impl Model for Path {
    ghost use Rattle.rust_ast.specs.SourceTypes.{Path, coded_path};

    ghost Value = { Path };

    ghost coded = { coded_path };

    ghost use Rattle.rust_ast.specs.SourceTypesView.{path_of};

    ghost view = { λ e. path_of e.node };
}

impl Path {
    ghost use Rattle.std.specs.Prelude.{◌≡◌};
    ghost use Rattle.rust_ast.specs.SourceTypesView.{path_of};

    /// The form, taken out.
    pub fn into_node(self) -> PathNode
        ensures { path_of result ≡ self }
    {
        let Path { node } = self;
        node
    }
}

impl Model for Written {
    ghost use Rattle.rust_ast.specs.SourceTypes.{Written, coded_written, nodes_written};

    ghost Value = { Written };

    ghost coded = { coded_written };

    ghost use Rattle.rust_ast.specs.SourceTypesView.{written_of};

    ghost view = { λ e. written_of e.node };

    ghost size = { nodes_written };

    ghost use Rattle.std.proofs.Common.{arith};
    ghost use Rattle.rust_ast.specs.SourceTypesFalls.{written_falls};

    ghost size_decreases = { λ a h. Prim.omega (arith, written_falls a.node) };
}

impl Written {
    ghost use Rattle.std.specs.Prelude.{◌≡◌};
    ghost use Rattle.rust_ast.specs.SourceTypesView.{written_of};

    /// The form, taken out.
    pub fn into_node(self) -> WrittenNode
        ensures { written_of result ≡ self }
    {
        let Written { node } = self;
        node
    }
}
