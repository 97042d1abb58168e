//! Whether values have types.

ghost use Rattle.std.specs.Prelude.{◌≡◌, ◌∷◌, [], map, IfOk, Some};
ghost use Rattle.std.specs.Option.{option_map};
ghost use Rattle.pure_ast.specs.Types as types;
ghost use Rattle.pure_ast.specs.Values.{pvalues};
ghost use Rattle.text_meaning.specs.HasType as has;
ghost use Rattle.text_meaning.specs.Lookups as lookups;
ghost use Rattle.text_words.specs.Typing as spec;

use crate::putting_in::{copy_type, put_in};
use aen_base::{IntTy, List, Name, NoMem, TypeId, at};
use pure_ast::{CtorId, Defs, PTy, PTyNode, PValue, PValueNode};
use std::alloc::Global;

/// Whether a value has a type without type parameters. The only error is want of memory.
#[cycle(typing)]
pub(crate) fn has_type(alloc: Global, defs: &Defs, ty: &PTy, value: &PValue) -> Result<bool, NoMem>
    ensures { IfOk result (λ b. b ≡ spec.has_type defs.now ty.now value.now) }
{
    match &value.node {
        PValueNode::Num(number) => Ok(is_integer(ty, number.ty())),
        PValueNode::Bool(_) => Ok(is_boolean(ty)),
        PValueNode::Tuple(parts) => match tuple_types(ty) {
            Some(types) => Ok(have_types(alloc, defs, types, parts.as_slice())?),
            None => Ok(false),
        },
        PValueNode::Ctor(ctor, parts) => match part_types(alloc, defs, ty, *ctor)? {
            Some(types) => Ok(have_types(alloc, defs, types.as_slice(), parts.as_slice())?),
            None => Ok(false),
        },
    }
}

/// Whether there are as many values as types, each of its own. The only error is want of memory.
#[cycle(typing)]
fn have_types(alloc: Global, defs: &Defs, types: &[PTy], values: &[PValue]) -> Result<bool, NoMem>
    ensures { IfOk result (λ b. b ≡ spec.have_types defs.now (Some types.now) (pvalues values.now)) }
{
    let mut left = types;
    for value in values {
        match left {
            [ty, others @ ..] => {
                if !has_type(alloc, defs, ty, value)? {
                    return Ok(false);
                }
                left = others;
            }
            [] => return Ok(false),
        }
    }
    Ok(left.is_empty())
}

/// Whether a type is this integer type.
fn is_integer(ty: &PTy, int: IntTy) -> bool
    ensures { result ≡ spec.is_integer ty.now int }
{
    match &ty.node {
        PTyNode::Int(own) => *own == int,
        _ => false,
    }
}

/// Whether a type is the type of `true` and `false`.
fn is_boolean(ty: &PTy) -> bool
    ensures { result ≡ spec.is_boolean ty.now }
{
    match &ty.node {
        PTyNode::Bool => true,
        _ => false,
    }
}

/// The types of the parts of a tuple of this type; None where the type has no tuples.
#[tactic(auto, using(crate::proofs::PuttingIn::product_types))]
fn tuple_types(ty: &PTy) -> Option<&[PTy]>
    ensures { option_map (λ s. s.now) result ≡ has.tuple_types ty.now }
{
    match &ty.node {
        PTyNode::Unit => Some(&[]),
        PTyNode::Prod(parts) => Some(parts.as_slice()),
        _ => None,
    }
}

/// The types of a constructor's parts in this type; None where the type has no such constructor.
/// The only error is want of memory.
#[tactic(auto, using(crate::proofs::PuttingIn::named_types))]
fn part_types(
    alloc: Global,
    defs: &Defs,
    ty: &PTy,
    ctor: CtorId,
) -> Result<Option<List<PTy>>, NoMem>
    ensures { IfOk result (λ o. o ≡ has.part_types defs.now ty.now ctor) }
{
    match (&ty.node, ctor) {
        (PTyNode::Named(own, args), CtorId::Of(other, variant)) => {
            if own.0 != other.0 {
                return Ok(None);
            }
            Ok(variant_types(alloc, defs, *own, variant, args.as_slice())?)
        }
        (PTyNode::Exit(broken, _), CtorId::Brk) => Ok(Some(only(alloc, broken.get())?)),
        (PTyNode::Exit(_, returned), CtorId::Ret) => Ok(Some(only(alloc, returned.get())?)),
        _ => Ok(None),
    }
}

/// A copy of one type alone. The only error is want of memory.
fn only(alloc: Global, ty: &PTy) -> Result<List<PTy>, NoMem>
    ensures { IfOk result (λ all. all ≡ ty.now ∷ []) }
{
    let mut all = List::new(alloc);
    all.push(copy_type(alloc, ty)?)?;
    Ok(all)
}

/// The types of a variant's fields where its type has these arguments; None where there is no such
/// variant. The only error is want of memory.
fn variant_types(
    alloc: Global,
    defs: &Defs,
    ty: TypeId,
    variant: u32,
    args: &[PTy],
) -> Result<Option<List<PTy>>, NoMem>
    ensures { IfOk result (λ o. o ≡ option_map (has.field_types args.now) (lookups.variant defs.now ty.0 variant)) }
{
    match at(defs.types.as_slice(), ty.0 as usize) {
        Some(decl) => match at(decl.variants.as_slice(), variant as usize) {
            Some(found) => Ok(Some(field_types(alloc, args, found.1.as_slice())?)),
            None => Ok(None),
        },
        None => Ok(None),
    }
}

/// The types of fields where their type has these arguments. The only error is want of memory.
fn field_types(alloc: Global, args: &[PTy], fields: &[(Name, PTy)]) -> Result<List<PTy>, NoMem>
    ensures { IfOk result (λ all. all ≡ map (λ f. has.put_in args.now f.1) fields.now) }
{
    let mut all = List::new(alloc);
    for (_, ty) in fields {
        all.push(put_in(alloc, args, ty)?)?;
    }
    Ok(all)
}
