// Made by tools/code.py from tools/rust_ast.desc.py.
use aen_base::{Boxed, List, Num, Span, TypeId};
use std::marker::Model;

/// How a name takes what it meets.
pub struct Mode {
    pub node: ModeNode,
}

impl Drop for Mode {
    fn drop(self) {
        let Mode { node: _ } = self;
    }
}

/// The forms of `Mode`.
#[derive(Drop)]
pub enum ModeNode {
    /// It copies the value.
    Copy,
    /// It moves the value.
    Move,
    /// It is a reference to the part; true for `&mut`.
    Refer(bool),
}

/// A pattern, with what it looks through and how its names bind.
#[cycle(spelled_patterns)]
pub struct Pat {
    pub node: PatNode,
}

impl Drop for Pat {
    fn drop(self) {
        let Pat { node } = self;
        match node {
            PatNode::Wild => {}
            PatNode::Bind(_, _, _) => {}
            PatNode::Number(_) => {}
            PatNode::Truth(_) => {}
            PatNode::Tuple(_tuple) => {}
            PatNode::Construct(_, _, _construct) => {}
            PatNode::Through(_, _) => {}
        }
    }
}

/// The forms of `Pat`.
#[cycle(spelled_patterns)]
#[derive(Drop)]
pub enum PatNode {
    /// `_`.
    Wild,
    /// A variable: the span of the pattern, its number, how it takes what it meets.
    Bind(Span, u32, Mode),
    /// An integer with its type.
    Number(Num),
    /// `true` or `false`.
    Truth(bool),
    /// A tuple of these parts, or `()`.
    Tuple(List<Pat>),
    /// A variant of a declared type, of a struct the variant 0: the parts with the numbers of their fields.
    Construct(TypeId, u32, List<(u32, Pat)>),
    /// The pattern of what a reference leads to; true for `&mut`.
    Through(bool, Boxed<Pat>),
}

impl Model for Mode {
    ghost use Rattle.rust_ast.specs.SpelledPatterns.{Mode, coded_mode};

    ghost Value = { Mode };

    ghost coded = { coded_mode };

    ghost use Rattle.rust_ast.specs.SpelledPatternsView.{mode_of};

    ghost view = { λ e. mode_of e.node };
}

impl Mode {
    ghost use Rattle.std.specs.Prelude.{◌≡◌};
    ghost use Rattle.rust_ast.specs.SpelledPatternsView.{mode_of};

    /// The form, taken out.
    pub fn into_node(self) -> ModeNode
        ensures { mode_of result ≡ self }
    {
        let Mode { node } = self;
        node
    }
}

impl Model for Pat {
    ghost use Rattle.rust_ast.specs.SpelledPatterns.{Pat, coded_pat, nodes_pat};

    ghost Value = { Pat };

    ghost coded = { coded_pat };

    ghost use Rattle.rust_ast.specs.SpelledPatternsView.{pat_of};

    ghost view = { λ e. pat_of e.node };

    ghost size = { nodes_pat };

    ghost use Rattle.std.proofs.Common.{arith};
    ghost use Rattle.rust_ast.specs.SpelledPatternsFalls.{pat_falls};

    ghost size_decreases = { λ a h. Prim.omega (arith, pat_falls a.node) };
}

impl Pat {
    ghost use Rattle.std.specs.Prelude.{◌≡◌};
    ghost use Rattle.rust_ast.specs.SpelledPatternsView.{pat_of};

    /// The form, taken out.
    pub fn into_node(self) -> PatNode
        ensures { pat_of result ≡ self }
    {
        let Pat { node } = self;
        node
    }
}
