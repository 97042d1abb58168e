//! Types that have no value down to a level.

ghost use Rattle.std.specs.Prelude.{◌≡◌, List, slice_get, IfOk, IfSome, OnOk};
ghost use Rattle.std.specs.List.{All, list_all, list_any};
ghost use Rattle.core_ty.specs.declared.decl.TypeDecl.{TypeDecl};
ghost use Rattle.type_cover.specs.Remembered.{IsRight};
ghost use Rattle.type_cover.specs.Splitting as spec;

use crate::types::{content, field_types};
use aen_base::{List, NoMem, at};
use core_ty::{Ty, TyNode, TypeDecl, Variant};
use std::alloc::Global;

/// What was found of a type at a level.
#[derive(Drop)]
pub(crate) struct Known {
    pub ty: Ty,
    pub level: usize,
    pub is_void: bool,
}

/// Whether a type has no value down to a level. What is found on the way is kept, since the same type
/// may stand at many places of one. The only error is want of memory.
pub(crate) fn is_void(
    alloc: Global,
    decls: &[TypeDecl],
    level: usize,
    ty: &Ty,
) -> Result<bool, NoMem>
    ensures { IfOk result (λ b. b ≡ spec.is_void decls.now level ty.now) }
{
    let mut known = List::new(alloc);
    void_at(alloc, decls, level, ty, &mut known)
}

/// What is known of a type at a level.
fn look_up(known: &[Known], level: usize, ty: &Ty) -> Option<bool>
    ensures { (ds : List TypeDecl) → All (IsRight ds) known.now → IfSome result (λ b. b ≡ spec.is_void ds level ty.now) }
{
    for one in known {
        if one.level == level && one.ty.is_same(ty) {
            return Some(one.is_void);
        }
    }
    None
}

#[cycle(void)]
fn void_at(
    alloc: Global,
    decls: &[TypeDecl],
    level: usize,
    ty: &Ty,
    known: &mut List<Known>,
) -> Result<bool, NoMem>
    requires { All (IsRight decls.now) known.old }
    ensures value { IfOk result (λ b. b ≡ spec.is_void decls.now level ty.now) }
    ensures kept { OnOk result (All (IsRight decls.now) known.new) }
{
    if level == 0 {
        return Ok(false);
    }
    if let Some(is_void) = look_up(known.as_slice(), level, ty) {
        return Ok(is_void);
    }
    let is_void = void_level(alloc, decls, level - 1, content(ty), known)?;
    let ty = ty.try_clone(alloc)?;
    known.push(Known { ty, level, is_void })?;
    Ok(is_void)
}

/// Whether a type that is no reference has no value, by its parts down to the level below.
#[cycle(void)]
fn void_level(
    alloc: Global,
    decls: &[TypeDecl],
    below: usize,
    ty: &Ty,
    known: &mut List<Known>,
) -> Result<bool, NoMem>
    requires { All (IsRight decls.now) known.old }
    ensures value { IfOk result (λ b. b ≡ spec.void_level (spec.is_void decls.now below) decls.now ty.now) }
    ensures kept { OnOk result (All (IsRight decls.now) known.new) }
{
    match &ty.node {
        TyNode::Tuple(parts) => any_void(alloc, decls, below, parts.as_slice(), known),
        TyNode::Named(decl, args) => match at(decls, decl.0 as usize) {
            None => Ok(true),
            Some(declared) => {
                all_void(
                    alloc,
                    decls,
                    below,
                    args.as_slice(),
                    declared.variants.as_slice(),
                    known,
                )
            }
        },
        TyNode::Int(_) => Ok(false),
        TyNode::Bool => Ok(false),
        TyNode::Unit => Ok(false),
        TyNode::Param(_) => Ok(false),
        TyNode::Boxed(_) => Ok(false),
        TyNode::Ref(_, _, _) => Ok(false),
    }
}

/// Whether one of these types has no value.
#[cycle(void)]
fn any_void(
    alloc: Global,
    decls: &[TypeDecl],
    level: usize,
    types: &[Ty],
    known: &mut List<Known>,
) -> Result<bool, NoMem>
    requires { All (IsRight decls.now) known.old }
    ensures value { IfOk result (λ b. b ≡ list_any (spec.is_void decls.now level) types.now) }
    ensures kept { OnOk result (All (IsRight decls.now) known.new) }
{
    for ty in types {
        if void_at(alloc, decls, level, ty, known)? {
            return Ok(true);
        }
    }
    Ok(false)
}

/// Whether each variant has a field without a value.
#[cycle(void)]
fn all_void(
    alloc: Global,
    decls: &[TypeDecl],
    level: usize,
    args: &[Ty],
    variants: &[Variant],
    known: &mut List<Known>,
) -> Result<bool, NoMem>
    requires { All (IsRight decls.now) known.old }
    ensures value { IfOk result (λ b. b ≡ list_all (spec.void_variant (spec.is_void decls.now level) args.now) variants.now) }
    ensures kept { OnOk result (All (IsRight decls.now) known.new) }
{
    for variant in variants {
        let types = field_types(alloc, args, variant.fields.as_slice())?;
        if !any_void(alloc, decls, level, types.as_slice(), known)? {
            return Ok(false);
        }
    }
    Ok(true)
}
