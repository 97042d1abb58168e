ghost use Rattle.std.specs.Prelude.{◌≡◌, IfOk};
ghost use Rattle.sums_ast.specs.Tree.{exprs};
ghost use Rattle.translate.specs.Emit as spec;
ghost use Rattle.translate.specs.Spine as spine;
ghost use Rattle.translate.specs.Adds as adds;

use crate::atom::Atom;
use crate::emitter::Emitter;
use crate::spine::{First, Right, Spine, along_left};
use aen_base::{BinOp, DefId, IntTy, List, NoMem};
use pure_ast::{Comp, Primitive, Term};
use std::alloc::Global;
use sums_ast::Expr;

/// The computation of an operator on two numbers. The only error is want of memory.
fn operation(alloc: Global, op: BinOp, left: Atom, right: Atom) -> Result<Comp, NoMem>
    ensures { IfOk result (λ c. c ≡ spec.operation op left right) }
{
    let mut parts = List::new(alloc);
    parts.push(left.term())?;
    parts.push(right.term())?;
    Ok(Comp::Prim(Primitive::Arith(IntTy::U32, op), parts))
}

/// Emits an expression, left sides and arguments first, and gives the atom that is its value. The
/// only error is want of memory. It goes down right sides and arguments, and along left sides in a
/// loop.
#[cycle(expression)]
pub fn expression(
    alloc: Global,
    emitter: &mut Emitter,
    atoms: &[Atom],
    expr: &Expr,
) -> Result<Atom, NoMem>
    ensures { IfOk result (λ a. adds.Adds emitter.old emitter.new (spec.emit emitter.old.next atoms.now expr.now) a) }
{
    let Spine { first, mut rights } = along_left(alloc, atoms, expr)?;
    let mut atom = begin(alloc, emitter, atoms, &first)?;
    while let Some(right) = rights.pop() {
        atom = operate(alloc, emitter, atoms, atom, &right)?;
    }
    Ok(atom)
}

/// Emits the right side of an operator, and then the operator.
#[cycle(expression)]
fn operate(
    alloc: Global,
    emitter: &mut Emitter,
    atoms: &[Atom],
    left: Atom,
    right: &Right<'_>,
) -> Result<Atom, NoMem>
    ensures { IfOk result (λ a. adds.Adds emitter.old emitter.new (spec.right_emitted emitter.old.next left right.now.op (spec.emit emitter.old.next atoms.now right.now.side.now)) a) }
{
    let side = expression(alloc, emitter, atoms, right.side)?;
    let comp = operation(alloc, right.op, left, side)?;
    emitter.compute(comp)
}

/// Emits what stands first in an expression: nothing for an atom, or the arguments of a call and
/// then the call.
#[cycle(expression)]
fn begin(
    alloc: Global,
    emitter: &mut Emitter,
    atoms: &[Atom],
    first: &First<'_>,
) -> Result<Atom, NoMem>
    ensures { IfOk result (λ a. adds.Adds emitter.old emitter.new (spine.first_emitted emitter.old.next atoms.now first.now) a) }
{
    match first {
        First::Atom(atom) => Ok(*atom),
        First::Call(function, items) => {
            let parts = arguments(alloc, emitter, atoms, items)?;
            emitter.compute(Comp::Call(DefId(function.0), parts))
        }
    }
}

/// Emits arguments from left to right, and gives the terms that are their values.
#[cycle(expression)]
fn arguments(
    alloc: Global,
    emitter: &mut Emitter,
    atoms: &[Atom],
    items: &[Expr],
) -> Result<List<Term>, NoMem>
    ensures { IfOk result (λ all. adds.AddsAll emitter.old emitter.new (spec.emit_all emitter.old.next atoms.now (exprs items.now)) all) }
{
    let mut parts = List::new(alloc);
    for item in items {
        let atom = expression(alloc, emitter, atoms, item)?;
        parts.push(atom.term())?;
    }
    Ok(parts)
}
