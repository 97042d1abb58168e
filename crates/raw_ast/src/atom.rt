ghost use Rattle.std.specs.Prelude.{◌≡◌, ◌+◌, ◌<◌, length, IfOk, MatchOption};
ghost use Rattle.raw_ast.specs.AtomView.{atom_of};
ghost use Rattle.raw_ast.specs.Atoms as atoms;

use crate::{Constructor, Spelling};
use aen_base::{Boxed, IntTy, List, NoMem};
use std::alloc::Global;
use std::marker::Model;

/// An atom as it is spelled. Contracts see it as `RawAtom` of `specs/Atoms.antt`.
#[cycle(atom)]
pub struct RawAtom {
    pub node: RawAtomNode,
}

/// A deep atom is dropped in a loop. What is left to drop stands in one list; where an atom has parts
/// of its own, that list waits in the place of the first of them, which is dropped next.
impl Drop for RawAtom {
    fn drop(mut self) {
        let RawAtom { node } = self;
        let Some(mut left) = parts_of(node) else {
            return;
        };
        let Some(first) = left.pop() else {
            return;
        };
        self = first;
        loop {
            let RawAtom { node } = self;
            match parts_of(node) {
                None => {}
                Some(parts) => {
                    if left.is_empty() {
                        left = parts;
                    } else if !parts.is_empty() {
                        let (next, more) = put_under(left, parts);
                        self = next;
                        left = more;
                        continue;
                    }
                }
            }
            let Some(next) = left.pop() else {
                return;
            };
            self = next;
        }
    }
}

/// The parts of an atom, if it has a list of them.
fn parts_of(node: RawAtomNode) -> Option<List<RawAtom>>
    ensures { MatchOption result (atoms.nodes_rawatom (atom_of node) ≡ 1) (λ parts. atoms.nodes_rawatom (atom_of node) ≡ atoms.nodes_rawatoms (atoms.rawatoms parts) + 1) }
{
    match node {
        RawAtomNode::Var(_variable) => None,
        RawAtomNode::Lit(_number, _) => None,
        RawAtomNode::Bool(_) => None,
        RawAtomNode::Tuple(parts) => Some(parts),
        RawAtomNode::Ctor(_name, parts) => Some(parts),
    }
}

/// The first of some parts, and the others with a list in its place. It takes no memory.
fn put_under(left: List<RawAtom>, parts: List<RawAtom>) -> (RawAtom, List<RawAtom>)
    requires { 0 < length parts }
    ensures first { atoms.nodes_rawatom result.0 < atoms.nodes_rawatoms (atoms.rawatoms parts) }
    ensures all { atoms.nodes_rawatom result.0 + atoms.nodes_rawatoms (atoms.rawatoms result.1) ≡ atoms.nodes_rawatoms (atoms.rawatoms left) + atoms.nodes_rawatoms (atoms.rawatoms parts) + 1 }
{
    let mut parts = parts;
    let first = parts.replace(0, RawAtom::tuple(left));
    (first, parts)
}

/// The forms of an atom. Unit is the empty tuple.
#[cycle(atom)]
#[derive(Drop)]
pub enum RawAtomNode {
    Var(Spelling),
    Lit(Spelling, IntTy),
    Bool(bool),
    Tuple(List<RawAtom>),
    Ctor(Boxed<Constructor>, List<RawAtom>),
}

impl Model for RawAtom {
    ghost use Rattle.raw_ast.specs.Atoms.{RawAtom, coded_rawatom, nodes_rawatom};

    ghost Value = { RawAtom };

    ghost coded = { coded_rawatom };

    ghost use Rattle.raw_ast.specs.AtomView.{atom_of};

    ghost view = { λ t. atom_of t.node };

    ghost size = { nodes_rawatom };

    ghost use Rattle.std.proofs.Common.{arith};
    ghost use Rattle.raw_ast.specs.AtomFalls.{atom_falls};

    ghost size_decreases = { λ a h. Prim.omega (arith, atom_falls a.node) };
}

impl RawAtom {
    /// A variable.
    pub fn var(variable: Spelling) -> RawAtom
        ensures { result ≡ atoms.var variable }
    {
        RawAtom {
            node: RawAtomNode::Var(variable),
        }
    }

    /// A number of a type.
    pub fn literal(number: Spelling, ty: IntTy) -> RawAtom
        ensures { result ≡ atoms.literal number ty }
    {
        RawAtom {
            node: RawAtomNode::Lit(number, ty),
        }
    }

    /// `true` or `false`.
    pub fn truth(value: bool) -> RawAtom
        ensures { result ≡ atoms.truth value }
    {
        RawAtom {
            node: RawAtomNode::Bool(value),
        }
    }

    /// A tuple; without parts it is unit.
    pub fn tuple(parts: List<RawAtom>) -> RawAtom
        ensures { result ≡ atoms.tuple (atoms.rawatoms parts) }
    {
        RawAtom {
            node: RawAtomNode::Tuple(parts),
        }
    }

    /// A constructor with its parts. The only error is want of memory.
    pub fn built(alloc: Global, ctor: Constructor, parts: List<RawAtom>) -> Result<RawAtom, NoMem>
        ensures { IfOk result (λ t. t ≡ atoms.built ctor (atoms.rawatoms parts)) }
    {
        Ok(RawAtom {
            node: RawAtomNode::Ctor(Boxed::new(alloc, ctor)?, parts),
        })
    }
}
