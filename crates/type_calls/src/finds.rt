//! What is found so far of each type parameter.
ghost use Rattle.std.specs.Prelude.{◌≡◌, IfOk, is_none, option_copied};
ghost use Rattle.core_ty.specs.Types as t;
ghost use Rattle.type_calls.specs.Found.{found_reference, new_reference};
ghost use Rattle.type_rules.specs.Expecting.{or_unit};
ghost use Rattle.type_rules.specs.Matching as spec;

use aen_base::{List, NoMem, at};
use core_ty::{Ty, TyNode, subst};
use std::alloc::Global;
use type_values::type_facts::has_reference;

/// A copy of a type, if there is one. The only error is want of memory, here and below.
fn copied(alloc: Global, ty: Option<&Ty>) -> Result<Option<Ty>, NoMem>
    ensures { IfOk result (λ o. o ≡ option_copied ty.entry) }
{
    match ty {
        Some(ty) => Ok(Some(ty.try_clone(alloc)?)),
        None => Ok(None),
    }
}

/// What is found where type arguments are written: these, as far as they go.
#[tactic(auto, using(crate::proofs::Beginning::begins))]
pub fn begun(alloc: Global, count: usize, written: &[Ty]) -> Result<List<Option<Ty>>, NoMem>
    ensures { IfOk result (λ f. f ≡ spec.begun count written.now) }
{
    let mut finds = List::new(alloc);
    for i in 0..count {
        finds.push(copied(alloc, at(written, i))?)?;
    }
    Ok(finds)
}

/// A copy of what is found.
pub fn copy_finds(alloc: Global, finds: &[Option<Ty>]) -> Result<List<Option<Ty>>, NoMem>
    ensures { IfOk result (λ f. f ≡ finds.now) }
{
    let mut all = List::new(alloc);
    for found in finds {
        all.push(copy_find(alloc, found)?)?;
    }
    Ok(all)
}

fn copy_find(alloc: Global, found: &Option<Ty>) -> Result<Option<Ty>, NoMem>
    ensures { IfOk result (λ o. o ≡ found.now) }
{
    match found {
        Some(ty) => Ok(Some(ty.try_clone(alloc)?)),
        None => Ok(None),
    }
}

/// What is found of a type parameter.
pub fn find_of(finds: &[Option<Ty>], parameter: u32) -> Option<&Ty>
    ensures { option_copied result ≡ spec.find_of finds.now parameter }
{
    match at(finds, parameter as usize) {
        Some(found) => type_in(found),
        None => None,
    }
}

/// The type that is found, if one is.
fn type_in(found: &Option<Ty>) -> Option<&Ty>
    ensures { option_copied result ≡ found.now }
{
    match found {
        Some(ty) => Some(ty),
        None => None,
    }
}

/// Whether all parameters in a type are found.
#[cycle(known)]
pub fn is_known(finds: &[Option<Ty>], ty: &Ty) -> bool
    ensures { result ≡ spec.is_known finds.now ty.now }
{
    match &ty.node {
        TyNode::Int(_) => true,
        TyNode::Bool => true,
        TyNode::Unit => true,
        TyNode::Tuple(parts) => are_known(finds, parts.as_slice()),
        TyNode::Named(_, args) => are_known(finds, args.as_slice()),
        TyNode::Param(number) => find_of(finds, *number).is_some(),
        TyNode::Boxed(inner) => is_known(finds, inner.get()),
        TyNode::Ref(_, _, inner) => is_known(finds, inner.get()),
    }
}

/// Whether all parameters in these types are found.
#[cycle(known)]
fn are_known(finds: &[Option<Ty>], types: &[Ty]) -> bool
    ensures { result ≡ spec.are_known finds.now (t.tys types.now) }
{
    match types {
        [] => true,
        [first, rest @ ..] => is_known(finds, first) && are_known(finds, rest),
    }
}

/// Whether a type is a parameter that isn't found yet.
pub fn is_bare(finds: &[Option<Ty>], ty: &Ty) -> bool
    ensures { result ≡ spec.is_bare finds.now ty.now }
{
    match &ty.node {
        TyNode::Param(number) => find_of(finds, *number).is_none(),
        _ => false,
    }
}

/// The type that is found of a parameter, else unit.
fn found_type(alloc: Global, found: &Option<Ty>) -> Result<Ty, NoMem>
    ensures { IfOk result (λ t. t ≡ or_unit found.now) }
{
    match found {
        Some(ty) => ty.try_clone(alloc),
        None => Ok(Ty { node: TyNode::Unit }),
    }
}

/// The types that are found, unit where none is.
pub fn found_types(alloc: Global, finds: &[Option<Ty>]) -> Result<List<Ty>, NoMem>
    ensures { IfOk result (λ ts. ts ≡ spec.found_types finds.now) }
{
    let mut all = List::new(alloc);
    for found in finds {
        all.push(found_type(alloc, found)?)?;
    }
    Ok(all)
}

/// The type with what is found in the place of its parameters.
pub fn put_found(alloc: Global, finds: &[Option<Ty>], ty: &Ty) -> Result<Ty, NoMem>
    ensures { IfOk result (λ t. t ≡ spec.put_found finds.now ty.now) }
{
    let types = found_types(alloc, finds)?;
    subst(alloc, ty, types.as_slice())
}

/// Whether a parameter has no type yet.
fn is_not_found(found: &Option<Ty>) -> bool
    ensures { result ≡ is_none found.now }
{
    match found {
        Some(_) => false,
        None => true,
    }
}

/// Whether the type of some parameter is not found.
pub fn lacks_type(finds: &[Option<Ty>]) -> bool
    ensures { result ≡ spec.lacks_type finds.now }
{
    for found in finds {
        if is_not_found(found) {
            return true;
        }
    }
    false
}

/// Whether a type that holds a reference is found here and wasn't before.
fn is_new_reference(before: &Option<Ty>, after: Option<&Option<Ty>>) -> bool
    ensures { result ≡ new_reference before.now (option_copied after.entry) }
{
    if !is_not_found(before) {
        return false;
    }
    match after {
        Some(after) => holds_reference(after),
        None => false,
    }
}

/// Whether it is a type that holds a reference.
fn holds_reference(found: &Option<Ty>) -> bool
    ensures { result ≡ found_reference found.now }
{
    match found {
        Some(ty) => has_reference(ty),
        None => false,
    }
}

/// Whether a type that holds a reference is newly found.
pub fn finds_reference(before: &[Option<Ty>], after: &[Option<Ty>]) -> bool
    ensures { result ≡ spec.finds_reference before.now after.now }
{
    for i in 0..before.len() {
        if is_new_reference(&before[i], at(after, i)) {
            return true;
        }
    }
    false
}
