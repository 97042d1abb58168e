//! What a reference's content gives where a type with parameters is wanted.
ghost use Rattle.std.specs.Prelude.{◌≡◌, IfOk, None, option_map};
ghost use Rattle.type_calls.specs.Reaching.{as_reached, reached_inside};
ghost use Rattle.type_rules.specs.Lists.{or_else};
ghost use Rattle.type_rules.specs.Matching as spec;

use crate::finds::copy_finds;
use crate::matching::matched;
use aen_base::{List, NoMem};
use core_ty::{Ty, TyNode};
use std::alloc::Global;

/// The type if it matches, with what is found then. The only error is want of memory, here and below.
fn reached_here(
    alloc: Global,
    pattern: &Ty,
    finds: &[Option<Ty>],
    ty: &Ty,
) -> Result<Option<(Ty, List<Option<Ty>>)>, NoMem>
    ensures { IfOk result (λ o. option_map as_reached o ≡ spec.reached_at ty.now (spec.matched pattern.now ty.now finds.now) None) }
{
    let mut found = copy_finds(alloc, finds)?;
    if !matched(alloc, pattern, ty, &mut found)? {
        return Ok(None);
    }
    Ok(Some((ty.try_clone(alloc)?, found)))
}

/// The type that matches, through as few boxes as go, with what is found then; `bare` looks into no
/// box.
#[cycle(reached)]
#[tactic(auto, using(crate::proofs::Boxes::reached_by))]
pub fn reached(
    alloc: Global,
    bare: bool,
    pattern: &Ty,
    finds: &[Option<Ty>],
    ty: &Ty,
) -> Result<Option<(Ty, List<Option<Ty>>)>, NoMem>
    ensures { IfOk result (λ o. option_map as_reached o ≡ spec.reached bare pattern.now finds.now ty.now) }
{
    let here = reached_here(alloc, pattern, finds, ty)?;
    else_inside(alloc, here, bare, pattern, finds, ty)
}

/// What is reached here, else what is reached in the box that a type is.
#[cycle(reached)]
fn else_inside(
    alloc: Global,
    here: Option<(Ty, List<Option<Ty>>)>,
    bare: bool,
    pattern: &Ty,
    finds: &[Option<Ty>],
    ty: &Ty,
) -> Result<Option<(Ty, List<Option<Ty>>)>, NoMem>
    ensures { IfOk result (λ o. option_map as_reached o ≡ or_else (option_map as_reached here) (reached_inside bare pattern.now finds.now ty.now)) }
{
    match here {
        Some(here) => Ok(Some(here)),
        None => reached_inside(alloc, bare, pattern, finds, ty),
    }
}

/// What is reached in the box that a type is.
#[cycle(reached)]
fn reached_inside(
    alloc: Global,
    bare: bool,
    pattern: &Ty,
    finds: &[Option<Ty>],
    ty: &Ty,
) -> Result<Option<(Ty, List<Option<Ty>>)>, NoMem>
    ensures { IfOk result (λ o. option_map as_reached o ≡ reached_inside bare pattern.now finds.now ty.now) }
{
    match &ty.node {
        TyNode::Boxed(inner) => {
            if bare {
                return Ok(None);
            }
            reached(alloc, bare, pattern, finds, inner.get())
        }
        _ => Ok(None),
    }
}
