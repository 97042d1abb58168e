//! Functions and the whole program.

ghost use Rattle.std.specs.Prelude.{◌≡◌, ◌<◌, ◌^◌, [], length, map, IfOk};
ghost use Rattle.rust_ast.specs.declared.resolution.Function as whole;
ghost use Rattle.source_meaning.specs.Typing.{IsTyped};
ghost use Rattle.sums_ast.specs.declared.function.Function as sums;
ghost use Rattle.text_meaning.specs.Lists.{Each};
ghost use Rattle.text_meaning.specs.Names.{IsName};
ghost use Rattle.rust_sums.specs.Gets.{Gets};
ghost use Rattle.rust_sums.specs.Sums as spec;

use crate::SumsFault;
use crate::statements::body;
use crate::types::{are_u32, gives_u32};
use aen_base::{List, Name, NoMem};
use rust_ast::{Resolved, Variable, resolution};
use std::alloc::Global;
use sums_ast::{Block, Function, Program};
use text_tokens::is_name;

/// Whether a function is without lifetimes and type parameters, and from `u32` to `u32`.
#[tactic(auto, unfolding(crate::specs::Sums::has_plain_signature))]
fn has_plain_signature(f: &resolution::Function) -> bool
    ensures { result ≡ spec.has_plain_signature f.now }
{
    f.lifetimes.is_empty()
        && f.type_params.is_empty()
        && are_u32(f.params.as_slice())
        && gives_u32(&f.result)
        && f.params.len() <= f.variables.len()
}

/// The names of variables. The only error is want of memory.
fn variable_names(alloc: Global, variables: &[Variable]) -> Result<List<Name>, NoMem>
    ensures { IfOk result (λ names. names ≡ spec.variable_names variables.now) }
{
    let mut names = List::new(alloc);
    for variable in variables {
        names.push(variable.name.try_clone(alloc)?)?;
    }
    Ok(names)
}

/// A function with its body as one of sums. The only error is want of memory.
fn with_body(
    alloc: Global,
    f: &resolution::Function,
    parameters: u32,
    body: Block,
) -> Result<Function, NoMem>
    requires { length f.now.params ≡ parameters }
    ensures { IfOk result (λ g. g ≡ spec.with_body f.now body) }
{
    Ok(Function {
        name: f.name.try_clone(alloc)?,
        span: f.span,
        parameters,
        variables: variable_names(alloc, f.variables.as_slice())?,
        body,
    })
}

/// A function after these as one of sums. `Outside` exactly where it is none.
#[tactic(auto, unfolding(crate::specs::Sums::function))]
fn function(
    alloc: Global,
    earlier: &[Function],
    f: &resolution::Function,
) -> Result<Function, SumsFault>
    requires { length f.now.variables < 2 ^ 32 }
    ensures { Gets (spec.function earlier.now f.now) result }
{
    if !is_name(alloc, f.name.as_str())? || !has_plain_signature(f) {
        return Err(SumsFault::Outside);
    }
    let parameters = f.params.len() as u32;
    let total = f.variables.len() as u32;
    let block = body(alloc, earlier, parameters, total, &f.body)?;
    Ok(with_body(alloc, f, parameters, block)?)
}

/// These functions as those of sums. `Outside` exactly where one is none.
fn functions(alloc: Global, all: &[resolution::Function]) -> Result<List<Function>, SumsFault>
    requires { Each (λ (f : whole.Function). length f.variables < 2 ^ 32) all.now }
    ensures { Gets (spec.functions [] all.now) result }
{
    let mut done = List::new(alloc);
    for f in all {
        let one = function(alloc, done.as_slice(), f)?;
        done.push(one)?;
    }
    Ok(done)
}

/// The program of sums that a resolved program is. `Outside` exactly where it is none; `Memory` is
/// want of memory.
#[tactic(auto, unfolding(crate::specs::Sums::sums_of))]
pub fn sums_of(alloc: Global, resolved: &Resolved) -> Result<Program, SumsFault>
    requires few { Each (λ (f : whole.Function). length f.variables < 2 ^ 32) resolved.now.functions }
    ensures value { Gets (spec.sums_of resolved.now) result }
    ensures typed { IfOk result IsTyped }
    ensures named { IfOk result (λ p. Each IsName (map (λ (g : sums.Function). g.name) p.functions)) }
    ensures names { IfOk result (λ p. map (λ (g : sums.Function). g.name) p.functions ≡ map (λ (f : whole.Function). f.name) resolved.now.functions) }
{
    if !resolved.types.is_empty() {
        return Err(SumsFault::Outside);
    }
    let functions = functions(alloc, resolved.functions.as_slice())?;
    Ok(Program { functions })
}
