//! The body of a function with names resolved: its parameters are in scope where it begins.

ghost use Rattle.std.specs.Prelude.{◌≡◌, IfOk};
ghost use Rattle.name_tables.specs.Gives.{Gives};
ghost use Rattle.name_uses.specs.FunctionBodies as spec;

use crate::scope::Scope;
use crate::state::State;
use crate::uses::resolve_block;
use aen_base::{List, NoMem};
use name_tables::{Generics, Stop, Tables};
use rust_ast::Variable;
use rust_ast::program::{Function, Param};
use rust_ast::resolved::Block;
use std::alloc::Global;

/// The variables that parameters are.
fn param_variables(alloc: Global, params: &[Param]) -> Result<List<Variable>, NoMem>
    ensures { IfOk result (λ vs. vs ≡ spec.param_variables params.now) }
{
    let mut variables = List::new(alloc);
    for i in 0..params.len() {
        variables.push(Variable {
            name: params[i].name.name.try_clone(alloc)?,
            span: params[i].name.span,
            mutable: params[i].mutable,
            late: false,
        })?;
    }
    Ok(variables)
}

/// What is known where a body begins: the parameters are in scope.
fn beginning(alloc: Global, params: &[Param]) -> Result<State, NoMem>
    ensures { IfOk result (λ st. st ≡ spec.beginning params.now) }
{
    let state = State {
        scope: Scope::new(alloc),
        variables: param_variables(alloc, params)?,
        loops: 0,
    };
    let count = state.variables.len();
    state.enter(alloc, 0, count)
}

/// The body of a function, with all its variables by number.
///
/// # Errors
///
/// `Unknown` at the first use in the body that is declared nowhere. `Memory` for want of memory, or
/// where a variable, a loop, a type or a variant is no number of 32 bits.
pub fn resolve_body(
    alloc: Global,
    tables: &Tables,
    generics: &Generics,
    f: &Function,
) -> Result<(Block, List<Variable>), Stop>
    ensures { Gives (spec.function_body tables.now generics.now f.now) result }
{
    let start = beginning(alloc, f.params.as_slice())?;
    let (body, after) = resolve_block(alloc, tables, generics, &f.body, start)?;
    Ok((body, after.into_variables()))
}
