ghost use Rattle.std.specs.Prelude.{◌≡◌, IfOk};
ghost use Rattle.translate.specs.Emit as spec;
ghost use Rattle.translate.specs.Adds as adds;

use crate::function::definition;
use aen_base::{List, NoMem};
use pure_ast::Defs;
use std::alloc::Global;
use sums_ast::Program;

/// The definitions of a program, function by function. The only error is want of memory, also
/// where a function's number would pass the greatest u32.
pub fn definitions(alloc: Global, program: &Program) -> Result<Defs, NoMem>
    ensures same { IfOk result (λ defs. defs ≡ spec.translation program.now) }
    ensures small { IfOk result (λ defs. adds.AreNumbered program.now.functions) }
{
    let mut names = List::new(alloc);
    let mut defs = List::new(alloc);
    let mut number = 0u32;
    for function in program.functions.as_slice() {
        names.push(function.name.try_clone(alloc)?)?;
        defs.push(definition(alloc, number, function)?)?;
        let Some(next) = number.checked_add(1) else {
            return Err(NoMem);
        };
        number = next;
    }
    Ok(Defs {
        types: List::new(alloc),
        names,
        defs,
    })
}
