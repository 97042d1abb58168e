//! Puts types in place of type parameters.

ghost use Rattle.std.specs.Prelude.{◌≡◌, map, IfOk};
ghost use Rattle.pure_ast.specs.Types as types;
ghost use Rattle.text_meaning.specs.HasType as spec;

use aen_base::{List, NoMem, at};
use pure_ast::{PTy, PTyNode};
use std::alloc::Global;

/// A copy of a type. The only error is want of memory.
#[cycle(copying)]
pub(crate) fn copy_type(alloc: Global, ty: &PTy) -> Result<PTy, NoMem>
    ensures { IfOk result (λ t. t ≡ ty.now) }
{
    match &ty.node {
        PTyNode::Int(int) => Ok(PTy::int(*int)),
        PTyNode::Bool => Ok(PTy::bool_type()),
        PTyNode::Unit => Ok(PTy::unit()),
        PTyNode::Prod(parts) => Ok(PTy::product(copy_types(alloc, parts.as_slice())?)),
        PTyNode::Named(name, args) => Ok(PTy::named(*name, copy_types(alloc, args.as_slice())?)),
        PTyNode::Param(place) => Ok(PTy::parameter(*place)),
        PTyNode::Exit(broken, returned) => {
            let broken = copy_type(alloc, broken.get())?;
            let returned = copy_type(alloc, returned.get())?;
            Ok(PTy::exit(alloc, broken, returned)?)
        }
    }
}

/// Copies of types, in order. The only error is want of memory.
#[cycle(copying)]
pub(crate) fn copy_types(alloc: Global, types: &[PTy]) -> Result<List<PTy>, NoMem>
    ensures { IfOk result (λ all. all ≡ types.now) }
{
    let mut all = List::new(alloc);
    for ty in types {
        all.push(copy_type(alloc, ty)?)?;
    }
    Ok(all)
}

/// The type in this place, or the type parameter. The only error is want of memory.
fn argument(alloc: Global, args: &[PTy], place: u32) -> Result<PTy, NoMem>
    ensures { IfOk result (λ t. t ≡ spec.put_in args.now (types.parameter place)) }
{
    match at(args, place as usize) {
        Some(ty) => Ok(copy_type(alloc, ty)?),
        None => Ok(PTy::parameter(place)),
    }
}

/// A copy of a type with these types in place of the type parameters. The only error is want of
/// memory.
#[cycle(putting)]
#[tactic(auto, using(crate::proofs::PuttingIn::put_in_each))]
pub(crate) fn put_in(alloc: Global, args: &[PTy], ty: &PTy) -> Result<PTy, NoMem>
    ensures { IfOk result (λ t. t ≡ spec.put_in args.now ty.now) }
{
    match &ty.node {
        PTyNode::Int(int) => Ok(PTy::int(*int)),
        PTyNode::Bool => Ok(PTy::bool_type()),
        PTyNode::Unit => Ok(PTy::unit()),
        PTyNode::Prod(parts) => Ok(PTy::product(put_in_all(alloc, args, parts.as_slice())?)),
        PTyNode::Named(name, parts) => {
            let parts = put_in_all(alloc, args, parts.as_slice())?;
            Ok(PTy::named(*name, parts))
        }
        PTyNode::Param(place) => Ok(argument(alloc, args, *place)?),
        PTyNode::Exit(broken, returned) => {
            let broken = put_in(alloc, args, broken.get())?;
            let returned = put_in(alloc, args, returned.get())?;
            Ok(PTy::exit(alloc, broken, returned)?)
        }
    }
}

/// Copies of types with these types in place of the type parameters. The only error is want of
/// memory.
#[cycle(putting)]
pub(crate) fn put_in_all(alloc: Global, args: &[PTy], types: &[PTy]) -> Result<List<PTy>, NoMem>
    ensures { IfOk result (λ all. all ≡ map (spec.put_in args.now) types.now) }
{
    let mut all = List::new(alloc);
    for ty in types {
        all.push(put_in(alloc, args, ty)?)?;
    }
    Ok(all)
}
