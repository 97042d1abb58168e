ghost use Rattle.std.specs.Prelude.{◌≡◌, ◌+◌, ◌<◌, length, MatchOption};
ghost use Rattle.pure_ast.specs.ValueView.{value_of};
ghost use Rattle.pure_ast.specs.Values as values;

use crate::CtorId;
use aen_base::{List, Num};
use std::marker::Model;

/// A value that texts compute with. Contracts see it as `PValue` of `specs/Values.antt`.
#[cycle(value)]
pub struct PValue {
    pub node: PValueNode,
}

/// A deep value is dropped in a loop. What is left to drop stands in one list; where a value has
/// parts of its own, that list waits in the place of the first of them, which is dropped next.
impl Drop for PValue {
    fn drop(mut self) {
        let PValue { node } = self;
        let Some(mut left) = parts_of(node) else {
            return;
        };
        let Some(first) = left.pop() else {
            return;
        };
        self = first;
        loop {
            let PValue { node } = self;
            match parts_of(node) {
                None => {}
                Some(parts) => {
                    if left.is_empty() {
                        left = parts;
                    } else if !parts.is_empty() {
                        let (next, more) = put_under(left, parts);
                        self = next;
                        left = more;
                        continue;
                    }
                }
            }
            let Some(next) = left.pop() else {
                return;
            };
            self = next;
        }
    }
}

/// The parts of a value, if it has a list of them.
fn parts_of(node: PValueNode) -> Option<List<PValue>>
    ensures { MatchOption result (values.nodes_pvalue (value_of node) ≡ 1) (λ parts. values.nodes_pvalue (value_of node) ≡ values.nodes_pvalues (values.pvalues parts) + 1) }
{
    match node {
        PValueNode::Num(_) => None,
        PValueNode::Bool(_) => None,
        PValueNode::Tuple(parts) => Some(parts),
        PValueNode::Ctor(_, parts) => Some(parts),
    }
}

/// The first of some parts, and the others with a list in its place. It takes no memory.
fn put_under(left: List<PValue>, parts: List<PValue>) -> (PValue, List<PValue>)
    requires { 0 < length parts }
    ensures first { values.nodes_pvalue result.0 < values.nodes_pvalues (values.pvalues parts) }
    ensures all { values.nodes_pvalue result.0 + values.nodes_pvalues (values.pvalues result.1) ≡ values.nodes_pvalues (values.pvalues left) + values.nodes_pvalues (values.pvalues parts) + 1 }
{
    let mut parts = parts;
    let first = parts.replace(0, PValue::tuple(left));
    (first, parts)
}

/// The forms of a value. Unit is the empty tuple.
#[cycle(value)]
#[derive(Drop)]
pub enum PValueNode {
    Num(Num),
    Bool(bool),
    Tuple(List<PValue>),
    Ctor(CtorId, List<PValue>),
}

impl Model for PValue {
    ghost use Rattle.pure_ast.specs.Values.{PValue, coded_pvalue, nodes_pvalue};

    ghost Value = { PValue };

    ghost coded = { coded_pvalue };

    ghost use Rattle.pure_ast.specs.ValueView.{value_of};

    ghost view = { λ v. value_of v.node };

    ghost size = { nodes_pvalue };

    ghost use Rattle.std.proofs.Common.{arith};
    ghost use Rattle.pure_ast.specs.ValueFalls.{value_falls};

    ghost size_decreases = { λ a h. Prim.omega (arith, value_falls a.node) };
}

impl PValue {
    /// The form of the value, taken out of it.
    pub fn into_node(self) -> PValueNode
        ensures { value_of result ≡ self }
    {
        let PValue { node } = self;
        node
    }

    /// A number.
    pub fn number(number: Num) -> PValue
        ensures { result ≡ values.number number }
    {
        PValue {
            node: PValueNode::Num(number),
        }
    }

    /// `true` or `false`.
    pub fn truth(value: bool) -> PValue
        ensures { result ≡ values.truth value }
    {
        PValue {
            node: PValueNode::Bool(value),
        }
    }

    /// A tuple; without parts it is unit.
    pub fn tuple(parts: List<PValue>) -> PValue
        ensures { result ≡ values.tuple (values.pvalues parts) }
    {
        PValue {
            node: PValueNode::Tuple(parts),
        }
    }

    /// A constructor with its parts.
    pub fn built(ctor: CtorId, parts: List<PValue>) -> PValue
        ensures { result ≡ values.built ctor (values.pvalues parts) }
    {
        PValue {
            node: PValueNode::Ctor(ctor, parts),
        }
    }
}
