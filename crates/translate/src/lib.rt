//! From a program to the definitions that mean it.
#![tactic(auto)]

mod atom;
mod emitter;
mod expression;
mod function;
mod program;
mod spine;

ghost use Rattle.std.specs.Prelude.{IfOk, map};
ghost use Rattle.sums_ast.specs.declared.function.Function.{Function};
ghost use Rattle.source_meaning.specs.Typing.{IsTyped};
ghost use Rattle.text_meaning.specs.Scoped.{IsScoped};
ghost use Rattle.text_meaning.specs.WellFormed.{IsWellFormed};
ghost use Rattle.text_meaning.specs.WellFormedTypes.{AreNames};
ghost use Rattle.translate.specs.Lists.{Lists};
ghost use Rattle.translate.specs.Means.{Means};

use crate::program::definitions;
use aen_base::NoMem;
use pure_ast::Defs;
use std::alloc::Global;
use sums_ast::Program;

/// The definitions of a program. The only error is want of memory.
pub fn translate(alloc: Global, program: &Program) -> Result<Defs, NoMem>
    requires typed { IsTyped program.now }
    requires names { AreNames (map (λ (f : Function). f.name) program.now.functions) }
    ensures lists { IfOk result (Lists program.now) }
    ensures means { IfOk result (Means program.now) }
    ensures well_formed { IfOk result IsWellFormed }
    ensures scoped { IfOk result IsScoped }
{
    definitions(alloc, program)
}
