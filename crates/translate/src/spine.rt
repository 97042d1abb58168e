ghost use Rattle.std.specs.Prelude.{◌≡◌, ◌<◌, ℕ, List, IfOk};
ghost use Rattle.sums_ast.specs.Tree.{nodes_expr};
ghost use Rattle.translate.specs.Spine as spec;

use crate::atom::Atom;
use aen_base::{BinOp, FnId, List, NoMem};
use std::alloc::Global;
use sums_ast::{Expr, ExprNode};

/// What stands first in an expression: an atom, or a call with its arguments.
#[derive(Clone, Copy)]
pub enum First<'a> {
    /// A number or a variable.
    Atom(Atom),
    /// A call.
    Call(FnId, &'a [Expr]),
}

/// An operator and its right side.
#[derive(Clone, Copy)]
pub struct Right<'a> {
    /// The operator.
    pub op: BinOp,
    /// The right side.
    pub side: &'a Expr,
}

/// An expression along its left sides: what stands first, and the operators with their right
/// sides, the outermost first.
#[derive(Drop)]
pub struct Spine<'a> {
    /// What stands first.
    pub first: First<'a>,
    /// The operators with their right sides.
    pub rights: List<Right<'a>>,
}

/// The atom of a source variable; typing excludes a variable that has none.
fn known(atoms: &[Atom], variable: usize) -> Atom
    ensures { result ≡ spec.atom_at atoms.now variable }
{
    match atoms.get(variable) {
        Some(atom) => *atom,
        None => Atom::Variable(0),
    }
}

/// Walks down the left sides of an expression. The only error is want of memory.
pub fn along_left<'a>(alloc: Global, atoms: &[Atom], expr: &'a Expr) -> Result<Spine<'a>, NoMem>
    ensures whole { IfOk result (λ s. (n : ℕ) → spec.spine_emitted n atoms.now s ≡ spec.emit n atoms.now expr.now) }
    ensures smaller { IfOk result (λ s. spec.IsBelow (nodes_expr expr.now) s) }
{
    let mut rights = List::new(alloc);
    let mut left = expr;
    loop {
        match &left.node {
            ExprNode::Number(_, number) => {
                let first = First::Atom(Atom::Number(*number));
                return Ok(Spine { first, rights });
            }
            ExprNode::Variable(_, variable) => {
                let first = First::Atom(known(atoms, variable.0 as usize));
                return Ok(Spine { first, rights });
            }
            ExprNode::Call(_, function, arguments) => {
                let first = First::Call(*function, arguments.as_slice());
                return Ok(Spine { first, rights });
            }
            ExprNode::Binary(_, op, a, b) => {
                rights.push(Right {
                    op: *op,
                    side: b.get(),
                })?;
                left = a.get();
            }
        }
    }
}
