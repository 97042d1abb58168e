// Made by tools/code.py from tools/rust_ast.desc.py.
use crate::Ident;
use crate::source_types::Path;
use aen_base::{Boxed, IntTy, List, Name, Span};
use std::marker::Model;

/// A pattern. Each form begins with its span.
#[cycle(source_patterns)]
pub struct Pat {
    pub node: PatNode,
}

impl Drop for Pat {
    #[cycle(dropping_source_patterns)]
    fn drop(self) {
        let Pat { node } = self;
        match node {
            PatNode::Wild(_) => {}
            PatNode::Lone(_) => {}
            PatNode::MutBind(_, _) => {}
            PatNode::Number(_, _, _, _) => {}
            PatNode::Truth(_, _) => {}
            PatNode::Tuple(_, _tuple) => {}
            PatNode::Construct(_, _, _construct) => {}
            PatNode::Literal(_, _, _literal) => {}
        }
    }
}

/// The forms of `Pat`.
#[cycle(source_patterns)]
#[derive(Drop)]
pub enum PatNode {
    /// `_`.
    Wild(Span),
    /// A name alone: a binding, or a struct without fields.
    Lone(Ident),
    /// A name with `mut`, which binds.
    MutBind(Span, Ident),
    /// An integer: whether `-` stands before it, its magnitude, its suffix.
    Number(Span, bool, u128, Option<IntTy>),
    /// `true` or `false`.
    Truth(Span, bool),
    /// A tuple of these parts, or `()`.
    Tuple(Span, List<Pat>),
    /// A path with parts by place; without brackets there are none.
    Construct(Span, Path, List<Pat>),
    /// A path with parts by name in braces.
    Literal(Span, Path, List<FieldPat>),
}

/// A field in braces.
#[cycle(source_patterns)]
pub struct FieldPat {
    pub node: FieldPatNode,
}

impl Drop for FieldPat {
    #[cycle(dropping_source_patterns)]
    fn drop(self) {
        let FieldPat { node: _ } = self;
    }
}

/// The forms of `FieldPat`.
#[cycle(source_patterns)]
#[derive(Drop)]
pub enum FieldPatNode {
    /// A field's name alone, which binds.
    Short(Ident),
    /// A field's name and its pattern.
    Given(Span, Name, Boxed<Pat>),
}

impl Model for Pat {
    ghost use Rattle.rust_ast.specs.SourcePatterns.{Pat, coded_pat, nodes_pat};

    ghost Value = { Pat };

    ghost coded = { coded_pat };

    ghost use Rattle.rust_ast.specs.SourcePatternsView.{pat_of};

    ghost view = { λ e. pat_of e.node };

    ghost size = { nodes_pat };

    ghost use Rattle.std.proofs.Common.{arith};
    ghost use Rattle.rust_ast.specs.SourcePatternsFalls.{pat_falls};

    ghost size_decreases = { λ a h. Prim.omega (arith, pat_falls a.node) };
}

impl Pat {
    ghost use Rattle.std.specs.Prelude.{◌≡◌};
    ghost use Rattle.rust_ast.specs.SourcePatternsView.{pat_of};

    /// The form, taken out.
    pub fn into_node(self) -> PatNode
        ensures { pat_of result ≡ self }
    {
        let Pat { node } = self;
        node
    }
}

impl Model for FieldPat {
    ghost use Rattle.rust_ast.specs.SourcePatterns.{FieldPat, coded_fieldpat, nodes_fieldpat};

    ghost Value = { FieldPat };

    ghost coded = { coded_fieldpat };

    ghost use Rattle.rust_ast.specs.SourcePatternsView.{fieldpat_of};

    ghost view = { λ e. fieldpat_of e.node };

    ghost size = { nodes_fieldpat };

    ghost use Rattle.std.proofs.Common.{arith};
    ghost use Rattle.rust_ast.specs.SourcePatternsFalls.{fieldpat_falls};

    ghost size_decreases = { λ a h. Prim.omega (arith, fieldpat_falls a.node) };
}

impl FieldPat {
    ghost use Rattle.std.specs.Prelude.{◌≡◌};
    ghost use Rattle.rust_ast.specs.SourcePatternsView.{fieldpat_of};

    /// The form, taken out.
    pub fn into_node(self) -> FieldPatNode
        ensures { fieldpat_of result ≡ self }
    {
        let FieldPat { node } = self;
        node
    }
}
