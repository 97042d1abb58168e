// Made by tools/code.py from tools/rust_ast.desc.py.
use crate::written::Turbos;
use aen_base::{IntTy, List, Name, Span, TypeId};
use std::marker::Model;

/// A pattern. Each form begins with its span.
#[cycle(patterns)]
pub struct Pat {
    pub node: PatNode,
}

impl Drop for Pat {
    fn drop(self) {
        let Pat { node } = self;
        match node {
            PatNode::Wild(_) => {}
            PatNode::Bind(_, _, _, _) => {}
            PatNode::Number(_, _, _, _) => {}
            PatNode::Truth(_, _) => {}
            PatNode::Tuple(_, _tuple) => {}
            PatNode::Construct(_, _, _, _, _construct) => {}
            PatNode::Literal(_, _, _, _, _literal) => {}
        }
    }
}

/// The forms of `Pat`.
#[cycle(patterns)]
#[derive(Drop)]
pub enum PatNode {
    /// `_`.
    Wild(Span),
    /// A variable, which takes the value: the span of its name, whether `mut` is written, its number.
    Bind(Span, Span, bool, u32),
    /// An integer: whether `-` stands before it, its magnitude, its suffix.
    Number(Span, bool, u128, Option<IntTy>),
    /// `true` or `false`.
    Truth(Span, bool),
    /// A tuple of these parts, or `()`.
    Tuple(Span, List<Pat>),
    /// A declared type's variant, with the parts by place.
    Construct(Span, TypeId, u32, Turbos, List<Pat>),
    /// A declared type's variant, with the parts by name in braces.
    Literal(Span, TypeId, u32, Turbos, List<(Span, Name, Pat)>),
}

impl Model for Pat {
    ghost use Rattle.rust_ast.specs.Patterns.{Pat, coded_pat, nodes_pat};

    ghost Value = { Pat };

    ghost coded = { coded_pat };

    ghost use Rattle.rust_ast.specs.PatternsView.{pat_of};

    ghost view = { λ e. pat_of e.node };

    ghost size = { nodes_pat };

    ghost use Rattle.std.proofs.Common.{arith};
    ghost use Rattle.rust_ast.specs.PatternsFalls.{pat_falls};

    ghost size_decreases = { λ a h. Prim.omega (arith, pat_falls a.node) };
}

impl Pat {
    ghost use Rattle.std.specs.Prelude.{◌≡◌};
    ghost use Rattle.rust_ast.specs.PatternsView.{pat_of};

    /// The form, taken out.
    pub fn into_node(self) -> PatNode
        ensures { pat_of result ≡ self }
    {
        let Pat { node } = self;
        node
    }
}
