//! The fields of types, and the variants of declared types.
ghost use Rattle.std.specs.Prelude.{◌≡◌, Some, IfOk, option_copied};
ghost use Rattle.std.specs.Option.{option_and_then};
ghost use Rattle.aen_base.specs.Digits.{narrowed};
ghost use Rattle.type_rules.specs.Fields as spec;
ghost use Rattle.type_values.specs.Places.{begins_with_zero};

use aen_base::{Name, NoMem, TypeId, at, decimal_u32};
use core_ty::{Ty, TyNode, TypeDecl, Variant, subst};
use std::alloc::Global;

/// The fields of a variant of a declared type; none where there is no such variant.
pub fn fields_of(decls: &[TypeDecl], decl: TypeId, variant: u32) -> &[(Name, Ty)]
    ensures { result.now ≡ spec.fields_of decls.now decl.0 variant }
{
    match at(decls, decl.0 as usize) {
        Some(found) => variant_fields(at(found.variants.as_slice(), variant as usize)),
        None => &[],
    }
}

/// The fields of a variant, if there is one.
fn variant_fields(variant: Option<&Variant>) -> &[(Name, Ty)]
    ensures { result.now ≡ spec.variant_fields (option_copied variant.entry) }
{
    match variant {
        Some(found) => found.fields.as_slice(),
        None => &[],
    }
}

/// How many parameters a declared type has; none where there is no such type.
pub fn parameters_of(decls: &[TypeDecl], decl: TypeId) -> usize
    ensures { result ≡ spec.parameters_of decls.now decl.0 }
{
    match at(decls, decl.0 as usize) {
        Some(found) => found.params.len(),
        None => 0,
    }
}

/// The number and the type of the first field with this name. The only error is want of memory, here
/// and below.
pub fn field_named(
    alloc: Global,
    name: &Name,
    fields: &[(Name, Ty)],
) -> Result<Option<(u32, Ty)>, NoMem>
    ensures { IfOk result (λ o. o ≡ spec.field_named name.now 0 fields.now) }
{
    for i in 0..fields.len() {
        if fields[i].0 == *name {
            return Ok(Some(numbered(alloc, i, &fields[i].1)?));
        }
    }
    Ok(None)
}

/// A part with its number. 2 ^ 32 parts have no room in memory.
fn numbered(alloc: Global, place: usize, ty: &Ty) -> Result<(u32, Ty), NoMem>
    ensures { IfOk result (λ r. r ≡ (place, ty.now)) }
{
    match u32::try_from(place) {
        Ok(number) => Ok((number, ty.try_clone(alloc)?)),
        Err(_) => Err(NoMem),
    }
}

/// Whether a name of several bytes begins with 0.
fn has_zero_first(name: &[u8]) -> bool
    ensures { result ≡ begins_with_zero name.now }
{
    match name {
        [] => false,
        [first, rest @ ..] => match rest {
            [] => false,
            [_second, _more @ ..] => *first == b'0',
        },
    }
}

/// The number below 2 ^ 32 that a name spells as the place of a part.
#[tactic(auto, using(crate::proofs::Naming::place_narrowed))]
fn place_named(name: &[u8]) -> Option<u32>
    ensures { result ≡ option_and_then narrowed (spec.place_named name.now) }
{
    if has_zero_first(name) {
        return None;
    }
    decimal_u32(name)
}

/// The part in this place with its number.
fn part_at(alloc: Global, parts: &[Ty], place: u32) -> Result<Option<(u32, Ty)>, NoMem>
    ensures { IfOk result (λ o. o ≡ spec.at_place parts.now (Some place)) }
{
    match at(parts, place as usize) {
        Some(ty) => Ok(Some((place, ty.try_clone(alloc)?))),
        None => Ok(None),
    }
}

/// The part of a tuple that has this name. 2 ^ 32 parts have no room in memory.
#[tactic(auto, using(crate::proofs::Naming::at_some, crate::proofs::Naming::at_none))]
fn tuple_part(alloc: Global, name: &Name, parts: &[Ty]) -> Result<Option<(u32, Ty)>, NoMem>
    ensures { IfOk result (λ o. o ≡ spec.at_place parts.now (spec.place_named name.now)) }
{
    if parts.len() > 0xffff_ffff {
        return Err(NoMem);
    }
    match place_named(name.as_str().as_bytes()) {
        Some(place) => part_at(alloc, parts, place),
        None => Ok(None),
    }
}

/// The field of a struct that has this name.
fn struct_part(
    alloc: Global,
    args: &[Ty],
    name: &Name,
    decl: &TypeDecl,
) -> Result<Option<(u32, Ty)>, NoMem>
    ensures { IfOk result (λ o. o ≡ spec.struct_part args.now name.now (Some decl.now)) }
{
    if !decl.is_struct {
        return Ok(None);
    }
    let fields = variant_fields(at(decl.variants.as_slice(), 0));
    match field_named(alloc, name, fields)? {
        Some((number, ty)) => Ok(Some((number, subst(alloc, &ty, args)?))),
        None => Ok(None),
    }
}

/// The number and the type of the field of a type that has this name; nothing where it has no such
/// field.
#[tactic(auto, using(core_ty::specs::Types::tys_back))]
pub fn part_of(
    alloc: Global,
    decls: &[TypeDecl],
    name: &Name,
    ty: &Ty,
) -> Result<Option<(u32, Ty)>, NoMem>
    ensures { IfOk result (λ o. o ≡ spec.part_of decls.now name.now ty.now) }
{
    match &ty.node {
        TyNode::Tuple(parts) => tuple_part(alloc, name, parts.as_slice()),
        TyNode::Named(decl, args) => match at(decls, decl.0 as usize) {
            Some(found) => struct_part(alloc, args.as_slice(), name, found),
            None => Ok(None),
        },
        _ => Ok(None),
    }
}
