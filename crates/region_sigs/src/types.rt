//! Written types as types. The recursion is as deep as a type is nested, which the limits on brackets
//! and operators bound where a program was read from a source.

ghost use Rattle.std.specs.Prelude.{◌≡◌, not, ◌==◌, length};
ghost use Rattle.core_ty.specs.Types as t;
ghost use Rattle.region_sigs.specs.Gives.{Gives, GivesAs};
ghost use Rattle.region_sigs.specs.Standings.{as_standing};
ghost use Rattle.region_sigs.specs.Walks.{in_tys};
ghost use Rattle.rust_ast.specs.Written.{writtens};
ghost use Rattle.type_rules.specs.WrittenTypes as spec;

use crate::RegionFault;
use crate::declaring::Declaring;
use crate::sizes::within_limit;
use crate::standing::{Standing, next_region, region_of};
use aen_base::{Boxed, List, RegionId};
use core_ty::{Ty, TyNode};
use rust_ast::written::{Written, WrittenNode};
use std::alloc::Global;

/// Whether these are another number of arguments.
#[tactic(auto, using(core_ty::specs::Types::tys_back))]
fn are_not(args: &[Ty], count: usize) -> bool
    ensures { result ≡ not (length (t.tys_list (t.tys args.now)) == count) }
{
    args.len() != count
}

/// A box of a type, with the next new region.
fn boxed(alloc: Global, content: Ty, next: u32) -> Result<(Ty, u32), RegionFault>
    ensures { Gives (spec.as_type (t.boxed content) next) result }
{
    let content = Boxed::new(alloc, content)?;
    let node = TyNode::Boxed(content);
    within_limit(Ty { node }, next)
}

/// A reference with this region to a type, with the next new region.
fn reference(
    alloc: Global,
    region: Option<u32>,
    mutable: bool,
    content: Ty,
    next: u32,
) -> Result<(Ty, u32), RegionFault>
    ensures { Gives (spec.as_type (t.ref (spec.to_region region) mutable content) next) result }
{
    let content = Boxed::new(alloc, content)?;
    let node = TyNode::Ref(RegionId(region.unwrap_or(0)), mutable, content);
    within_limit(Ty { node }, next)
}

/// A written type with the next new region after it; `inside` a declared type, `Box`, type argument or
/// reference no borrow may stand.
#[cycle(written)]
pub(crate) fn type_of<D: Declaring>(
    alloc: Global,
    types: &D,
    standing: Standing,
    inside: bool,
    ty: &Written,
    next: u32,
) -> Result<(Ty, u32), RegionFault>
    ensures { Gives (spec.written (D.numbers types.now) (as_standing standing) inside ty.now next) result }
{
    match &ty.node {
        WrittenNode::Int(_, int) => {
            let node = TyNode::Int(*int);
            within_limit(Ty { node }, next)
        }
        WrittenNode::Bool(_) => within_limit(Ty { node: TyNode::Bool }, next),
        WrittenNode::Unit(_) => within_limit(Ty { node: TyNode::Unit }, next),
        WrittenNode::Tuple(_, parts) => {
            let (parts, next) = types_of(alloc, types, standing, inside, parts.as_slice(), next)?;
            let node = TyNode::Tuple(parts);
            within_limit(Ty { node }, next)
        }
        WrittenNode::Boxed(_, content) => {
            let (content, next) = type_of(alloc, types, standing, true, content.get(), next)?;
            boxed(alloc, content, next)
        }
        WrittenNode::Ref(span, lifetime, mutable, content) => {
            let (content, next) = type_of(alloc, types, standing, true, content.get(), next)?;
            if inside {
                return Err(RegionFault::NestedBorrow(*span));
            }
            let region = region_of(standing, lifetime, next);
            if region.is_none() {
                return Err(RegionFault::NoRegion(*span));
            }
            let next = next_region(standing, lifetime, next)?;
            reference(alloc, region, *mutable, content, next)
        }
        WrittenNode::Named(span, decl, args) => {
            let (args, next) = types_of(alloc, types, standing, true, args.as_slice(), next)?;
            if are_not(args.as_slice(), types.arity(*decl)) {
                return Err(RegionFault::Arity(*span));
            }
            let node = TyNode::Named(*decl, args);
            within_limit(Ty { node }, next)
        }
        WrittenNode::Param(span, number, args) => {
            let (args, next) = types_of(alloc, types, standing, true, args.as_slice(), next)?;
            if are_not(args.as_slice(), 0) {
                return Err(RegionFault::Arity(*span));
            }
            let node = TyNode::Param(*number);
            within_limit(Ty { node }, next)
        }
    }
}

/// Written types from left to right.
#[cycle(written)]
pub(crate) fn types_of<D: Declaring>(
    alloc: Global,
    types: &D,
    standing: Standing,
    inside: bool,
    items: &[Written],
    next: u32,
) -> Result<(List<Ty>, u32), RegionFault>
    ensures { GivesAs in_tys (spec.written_all (D.numbers types.now) (as_standing standing) inside (writtens items.now) next) result }
{
    let mut done = List::new(alloc);
    let mut following = next;
    for item in items {
        let (ty, after) = type_of(alloc, types, standing, inside, item, following)?;
        done.push(ty)?;
        following = after;
    }
    Ok((done, following))
}
