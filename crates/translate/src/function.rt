ghost use Rattle.std.specs.Prelude.{◌≡◌, ◌+◌, replicate, IfOk};
ghost use Rattle.sums_ast.specs.Tree.{maybeexpr, no_stmts};
ghost use Rattle.translate.specs.Emit as spec;
ghost use Rattle.translate.specs.Adds as adds;
ghost use Rattle.translate.specs.Lists.{u32_type};

use crate::atom::Atom;
use crate::emitter::Emitter;
use crate::expression::expression;
use aen_base::{FnId, IntTy, List, NoMem};
use pure_ast::{Def, DefKind, PTy};
use std::alloc::Global;
use sums_ast::{Block, BlockNode, Expr, Function, Stmt, StmtNode};

/// The atoms of the parameters, which are the first variables of the code. The only error is want
/// of memory.
fn parameter_atoms(alloc: Global, count: u32) -> Result<List<Atom>, NoMem>
    ensures { IfOk result (λ atoms. atoms ≡ spec.parameter_atoms count) }
{
    let mut atoms = List::new(alloc);
    for variable in 0..count {
        atoms.push(Atom::Variable(variable))?;
    }
    Ok(atoms)
}

/// The types of the parameters. The only error is want of memory.
fn parameter_types(alloc: Global, count: u32) -> Result<List<PTy>, NoMem>
    ensures { IfOk result (λ types. types ≡ replicate count u32_type) }
{
    let mut types = List::new(alloc);
    for _parameter in 0..count {
        types.push(PTy::int(IntTy::U32))?;
    }
    Ok(types)
}

/// The value that a `let` binds.
fn bound(statement: &Stmt) -> &Expr
    ensures { result.now ≡ spec.bound statement.now }
{
    let StmtNode::Bind(_, _, value) = &statement.node;
    value.get()
}

/// Emits the expression that gives a block's value. A block without one, which typing excludes,
/// has the first variable as its value. The only error is want of memory.
fn value(
    alloc: Global,
    emitter: &mut Emitter,
    atoms: &[Atom],
    block: &BlockNode,
) -> Result<Atom, NoMem>
    ensures { IfOk result (λ a. adds.Adds emitter.old emitter.new (spec.emit_body emitter.old.next atoms.now no_stmts (maybeexpr block.now.last)) a) }
{
    match &block.last {
        Some(last) => expression(alloc, emitter, atoms, last.get()),
        None => Ok(Atom::Variable(0)),
    }
}

/// Emits a block where the variables before it have these atoms, and gives the atom that is its
/// value. A `let` has no code of its own: its variable is the atom of its value. The only error is
/// want of memory.
fn body(
    alloc: Global,
    emitter: &mut Emitter,
    mut atoms: List<Atom>,
    block: &Block,
) -> Result<Atom, NoMem>
    ensures { IfOk result (λ a. adds.Adds emitter.old emitter.new (spec.emit_block emitter.old.next atoms block.now) a) }
{
    let parts = &block.node;
    for statement in parts.statements.as_slice() {
        let atom = expression(alloc, emitter, atoms.as_slice(), bound(statement))?;
        atoms.push(atom)?;
    }
    value(alloc, emitter, atoms.as_slice(), parts)
}

/// The forward definition of the function with this number. The only error is want of memory.
pub fn definition(alloc: Global, number: u32, function: &Function) -> Result<Def, NoMem>
    ensures same { IfOk result (λ d. d ≡ spec.definition number function.now) }
    ensures small { IfOk result (λ d. adds.IsNumbered function.now) }
{
    let first = function.parameters;
    let mut emitter = Emitter::new(alloc, first);
    let atoms = parameter_atoms(alloc, first)?;
    let atom = body(alloc, &mut emitter, atoms, &function.body)?;
    let code = emitter.finish(alloc, first, atom)?;
    Ok(Def {
        kind: DefKind::Forward(FnId(number)),
        type_params: List::new(alloc),
        params: parameter_types(alloc, first)?,
        result: PTy::int(IntTy::U32),
        code,
    })
}
