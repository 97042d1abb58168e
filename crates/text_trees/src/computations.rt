//! Patterns and computations.

ghost use Rattle.text_trees.specs.Codes as spec;
ghost use Rattle.text_trees.specs.Told.{Gives};

use crate::SettleFault;
use crate::atoms::{settle_atom, settle_atoms};
use crate::rules::{called, constructor, operation, variable};
use aen_base::{DefId, List};
use pure_ast::{Comp, Pat};
use raw_ast::{Computation, Pattern, Spelling};
use std::alloc::Global;
use text_names::Tables;

/// Variables by their numbers, in order.
fn settle_variables(alloc: Global, names: &[Spelling]) -> Result<List<u32>, SettleFault>
    ensures { Gives (spec.variables_told names.now) result }
{
    let mut done = List::new(alloc);
    for i in 0..names.len() {
        let number = variable(&names[i])?;
        done.push(number)?;
    }
    Ok(done)
}

/// The pattern that is spelled so.
pub(crate) fn settle_pattern(
    alloc: Global,
    tables: &Tables,
    raw: &Pattern,
) -> Result<Pat, SettleFault>
    ensures { Gives (spec.pattern_told tables.now raw.now) result }
{
    match raw {
        Pattern::Truth(truth) => Ok(Pat::Bool(*truth)),
        Pattern::Tuple(names) => Ok(Pat::Tuple(settle_variables(alloc, names.as_slice())?)),
        Pattern::Built(name, names) => {
            let ctor = constructor(tables, name.get(), names.len())?;
            let variables = settle_variables(alloc, names.as_slice())?;
            Ok(Pat::Ctor(ctor, variables))
        }
    }
}

/// The computation that is spelled so.
pub(crate) fn settle_computation(
    alloc: Global,
    tables: &Tables,
    raw: &Computation,
) -> Result<Comp, SettleFault>
    ensures { Gives (spec.computation_told tables.now raw.now) result }
{
    match raw {
        Computation::Ok(atom) => Ok(Comp::Ok(settle_atom(alloc, tables, atom)?)),
        Computation::Fail => Ok(Comp::Fail),
        Computation::Call(name, atoms) => {
            let number = called(tables, name.get(), atoms.len())?;
            let parts = settle_atoms(alloc, tables, atoms.as_slice())?;
            Ok(Comp::Call(DefId(number), parts))
        }
        Computation::Primitive(name, atoms) => {
            let primitive = operation(name, atoms.len())?;
            let parts = settle_atoms(alloc, tables, atoms.as_slice())?;
            Ok(Comp::Prim(primitive, parts))
        }
    }
}
