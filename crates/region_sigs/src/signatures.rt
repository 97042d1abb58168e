//! The signatures of functions.

ghost use Rattle.std.specs.Prelude.{◌≡◌, ◌<◌, length, slice_get, Some, IfOk};
ghost use Rattle.region_sigs.specs.Gives.{Gives};
ghost use Rattle.region_sigs.specs.Standings.{as_standing};
ghost use Rattle.rust_ast.specs.Written.{maybewritten};
ghost use Rattle.rust_ast.specs.declared.resolution.Function as whole;
ghost use Rattle.type_rules.specs.Declarations.{parameter_numbers};
ghost use Rattle.type_rules.specs.Signatures as spec;

use crate::RegionFault;
use crate::references::one_region;
use crate::standing::Standing;
use crate::types::{type_of, types_of};
use aen_base::{FnId, List, NoMem};
use core_ty::{Sig, Ty, TyNode};
use rust_ast::Resolved;
use rust_ast::resolution::{Declared, Function};
use rust_ast::written::Written;
use std::alloc::Global;

/// A length as a number of 32 bits. More things than that fit in no memory of a program.
fn number(length: usize) -> Result<u32, NoMem>
    ensures { IfOk result (λ n. n ≡ length) }
{
    match u32::try_from(length) {
        Ok(number) => Ok(number),
        Err(_) => Err(NoMem),
    }
}

/// The types of parameters with the next new region after them; each elided lifetime is a new region.
fn parameters_of(
    alloc: Global,
    types: &List<Declared>,
    params: &[Written],
    next: u32,
) -> Result<(List<Ty>, u32), RegionFault>
    ensures { Gives (spec.parameters_written (parameter_numbers types.now) params.now next) result }
{
    types_of(alloc, types, Standing::Input, false, params, next)
}

/// The type of a result, which is unit where none is written.
fn result_of(
    alloc: Global,
    types: &List<Declared>,
    standing: Standing,
    ty: &Option<Written>,
    next: u32,
) -> Result<(Ty, u32), RegionFault>
    ensures { Gives (spec.result_written (parameter_numbers types.now) (as_standing standing) (maybewritten ty.now) next) result }
{
    match ty {
        None => Ok((Ty { node: TyNode::Unit }, next)),
        Some(ty) => type_of(alloc, types, standing, false, ty, next),
    }
}

/// The signature of a function of a program with these declared types.
fn signature(alloc: Global, types: &List<Declared>, f: &Function) -> Result<Sig, RegionFault>
    ensures { Gives (spec.signature (parameter_numbers types.now) f.now) result }
{
    let type_params = number(f.type_params.len())?;
    let lifetimes = number(f.lifetimes.len())?;
    let (params, regions) = parameters_of(alloc, types, f.params.as_slice(), lifetimes)?;
    let one = one_region(alloc, params.as_slice())?;
    let (result, _) = result_of(alloc, types, Standing::Output(one), &f.result, regions)?;
    Ok(Sig {
        type_params,
        regions,
        params,
        result,
    })
}

/// The signature of a function, or the first fault in it. Declared lifetimes are the first regions,
/// then comes each elided one of the parameters in written order. An elided lifetime of the result is
/// the one region of the parameters.
///
/// # Errors
///
/// At the first type, in written order and parts before the whole: `NestedBorrow` at a reference
/// inside `Box`, a type argument or a reference; `NoRegion` at a reference whose lifetime isn't
/// declared, or is elided in the result where the parameters have no region or several; `Arity` at a
/// type with a wrong number of arguments; `Limit` where a type has more than 1,000 nodes. `Memory` may
/// come at any program.
#[tactic(auto, unfolding(type_rules::specs::Signatures::signature_of))]
pub fn regions(alloc: Global, program: &Resolved, f: FnId) -> Result<Sig, RegionFault>
    requires within { f.0 < length program.now.functions }
    ensures { (g : whole.Function) → slice_get program.now.functions f.0 ≡ Some g → Gives (spec.signature_of program.now g) result }
{
    let functions = program.functions.as_slice();
    signature(alloc, &program.types, &functions[f.0 as usize])
}
