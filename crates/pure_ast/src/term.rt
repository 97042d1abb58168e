ghost use Rattle.std.specs.Prelude.{◌≡◌, ◌+◌, ◌<◌, length, MatchOption};
ghost use Rattle.pure_ast.specs.TermView.{term_of};
ghost use Rattle.pure_ast.specs.Terms as terms;

use crate::CtorId;
use aen_base::{List, Num};
use std::marker::Model;

/// A term: it stands for a value and can't fail. Contracts see it as `Term` of `specs/Terms.antt`.
#[cycle(term)]
pub struct Term {
    pub node: TermNode,
}

/// A deep term is dropped in a loop. What is left to drop stands in one list; where a term has parts
/// of its own, that list waits in the place of the first of them, which is dropped next.
impl Drop for Term {
    fn drop(mut self) {
        let Term { node } = self;
        let Some(mut left) = parts_of(node) else {
            return;
        };
        let Some(first) = left.pop() else {
            return;
        };
        self = first;
        loop {
            let Term { node } = self;
            match parts_of(node) {
                None => {}
                Some(parts) => {
                    if left.is_empty() {
                        left = parts;
                    } else if !parts.is_empty() {
                        let (next, more) = put_under(left, parts);
                        self = next;
                        left = more;
                        continue;
                    }
                }
            }
            let Some(next) = left.pop() else {
                return;
            };
            self = next;
        }
    }
}

/// The parts of a term, if it has a list of them.
fn parts_of(node: TermNode) -> Option<List<Term>>
    ensures { MatchOption result (terms.nodes_term (term_of node) ≡ 1) (λ parts. terms.nodes_term (term_of node) ≡ terms.nodes_terms (terms.terms parts) + 1) }
{
    match node {
        TermNode::Var(_) => None,
        TermNode::Lit(_) => None,
        TermNode::Bool(_) => None,
        TermNode::Tuple(parts) => Some(parts),
        TermNode::Ctor(_, parts) => Some(parts),
    }
}

/// The first of some parts, and the others with a list in its place. It takes no memory.
fn put_under(left: List<Term>, parts: List<Term>) -> (Term, List<Term>)
    requires { 0 < length parts }
    ensures first { terms.nodes_term result.0 < terms.nodes_terms (terms.terms parts) }
    ensures all { terms.nodes_term result.0 + terms.nodes_terms (terms.terms result.1) ≡ terms.nodes_terms (terms.terms left) + terms.nodes_terms (terms.terms parts) + 1 }
{
    let mut parts = parts;
    let first = parts.replace(0, Term::tuple(left));
    (first, parts)
}

/// The forms of a term. Unit is the empty tuple; no tuple has one part.
#[cycle(term)]
#[derive(Drop)]
pub enum TermNode {
    Var(u32),
    Lit(Num),
    Bool(bool),
    Tuple(List<Term>),
    Ctor(CtorId, List<Term>),
}

impl Model for Term {
    ghost use Rattle.pure_ast.specs.Terms.{Term, coded_term, nodes_term};

    ghost Value = { Term };

    ghost coded = { coded_term };

    ghost use Rattle.pure_ast.specs.TermView.{term_of};

    ghost view = { λ t. term_of t.node };

    ghost size = { nodes_term };

    ghost use Rattle.std.proofs.Common.{arith};
    ghost use Rattle.pure_ast.specs.TermFalls.{term_falls};

    ghost size_decreases = { λ a h. Prim.omega (arith, term_falls a.node) };
}

impl Term {
    /// A variable.
    pub fn var(variable: u32) -> Term
        ensures { result ≡ terms.var variable }
    {
        Term {
            node: TermNode::Var(variable),
        }
    }

    /// A number.
    pub fn literal(number: Num) -> Term
        ensures { result ≡ terms.literal number }
    {
        Term {
            node: TermNode::Lit(number),
        }
    }

    /// `true` or `false`.
    pub fn truth(value: bool) -> Term
        ensures { result ≡ terms.truth value }
    {
        Term {
            node: TermNode::Bool(value),
        }
    }

    /// A tuple; without parts it is unit.
    pub fn tuple(parts: List<Term>) -> Term
        ensures { result ≡ terms.tuple (terms.terms parts) }
    {
        Term {
            node: TermNode::Tuple(parts),
        }
    }

    /// A constructor with its parts.
    pub fn built(ctor: CtorId, parts: List<Term>) -> Term
        ensures { result ≡ terms.built ctor (terms.terms parts) }
    {
        Term {
            node: TermNode::Ctor(ctor, parts),
        }
    }
}
