//! Types with parameters against types.
ghost use Rattle.std.specs.Prelude.{◌≡◌, ◌==◌, IfOk, Some, option_map, slice_set};
ghost use Rattle.core_ty.specs.Types as t;
ghost use Rattle.type_rules.specs.Matching as spec;
ghost use Rattle.type_rules.specs.TypeFacts as facts;

use crate::finds::find_of;
use aen_base::{List, NoMem};
use core_ty::{Ty, TyNode};
use std::alloc::Global;
use type_values::type_facts::same;

/// Notes that a type is found.
#[tactic(auto, using(type_values::specs::Setting::set_beyond))]
fn note(finds: &mut List<Option<Ty>>, parameter: u32, ty: Ty)
    ensures { finds.new ≡ slice_set finds.old parameter (Some ty) }
{
    if (parameter as usize) < finds.len() {
        finds.set(parameter as usize, Some(ty));
    }
}

/// Whether the type that was found of a parameter is this one, if one was found.
fn is_found(finds: &[Option<Ty>], parameter: u32, ty: &Ty) -> Option<bool>
    ensures { result ≡ option_map (λ x. facts.same x ty.now) (spec.find_of finds.now parameter) }
{
    match find_of(finds, parameter) {
        Some(found) => Some(same(found, ty)),
        None => None,
    }
}

/// A parameter against a type: what was found of it is compared; where nothing was, this is found. The
/// only error is want of memory, here and below.
#[tactic(auto, using(crate::proofs::Noting::matches, crate::proofs::Noting::finds))]
fn match_parameter(
    alloc: Global,
    parameter: u32,
    ty: &Ty,
    finds: &mut List<Option<Ty>>,
) -> Result<bool, NoMem>
    ensures { IfOk result (λ b. spec.match_param parameter ty.now finds.old (spec.find_of finds.old parameter) ≡ (b, finds.new)) }
{
    match is_found(finds.as_slice(), parameter, ty) {
        Some(fits) => Ok(fits),
        None => {
            let found = ty.try_clone(alloc)?;
            note(finds, parameter, found);
            Ok(true)
        }
    }
}

/// Whether there are as many types on both sides.
#[tactic(auto, using(crate::proofs::Noting::counted))]
fn as_many(patterns: &[Ty], types: &[Ty]) -> bool
    ensures { result ≡ (facts.count (t.tys patterns.now) == facts.count (t.tys types.now)) }
{
    patterns.len() == types.len()
}

/// Whether a type with parameters matches a type, and what is found then.
#[cycle(matching)]
pub fn matched(
    alloc: Global,
    pattern: &Ty,
    ty: &Ty,
    finds: &mut List<Option<Ty>>,
) -> Result<bool, NoMem>
    ensures { IfOk result (λ b. spec.matched pattern.now ty.now finds.old ≡ (b, finds.new)) }
{
    match (&pattern.node, &ty.node) {
        (TyNode::Param(number), _) => match_parameter(alloc, *number, ty, finds),
        (TyNode::Int(x), TyNode::Int(y)) => Ok(*x == *y),
        (TyNode::Bool, TyNode::Bool) => Ok(true),
        (TyNode::Unit, TyNode::Unit) => Ok(true),
        (TyNode::Tuple(xs), TyNode::Tuple(ys)) => {
            if !as_many(xs.as_slice(), ys.as_slice()) {
                return Ok(false);
            }
            matched_all(alloc, xs.as_slice(), ys.as_slice(), finds)
        }
        (TyNode::Named(d, xs), TyNode::Named(e, ys)) => {
            if d.0 != e.0 {
                return Ok(false);
            }
            matched_all(alloc, xs.as_slice(), ys.as_slice(), finds)
        }
        (TyNode::Boxed(x), TyNode::Boxed(y)) => matched(alloc, x.get(), y.get(), finds),
        (TyNode::Ref(_, true, x), TyNode::Ref(_, true, y)) => {
            matched(alloc, x.get(), y.get(), finds)
        }
        (TyNode::Ref(_, false, x), TyNode::Ref(_, false, y)) => {
            matched(alloc, x.get(), y.get(), finds)
        }
        _ => Ok(false),
    }
}

/// The same from left to right, up to the first that doesn't match.
#[cycle(matching)]
fn matched_all(
    alloc: Global,
    patterns: &[Ty],
    types: &[Ty],
    finds: &mut List<Option<Ty>>,
) -> Result<bool, NoMem>
    ensures { IfOk result (λ b. spec.matched_all (t.tys patterns.now) (t.tys types.now) finds.old ≡ (b, finds.new)) }
{
    match patterns {
        [] => Ok(true),
        [x, xs @ ..] => match types {
            [] => Ok(true),
            [y, ys @ ..] => {
                if !matched(alloc, x, y, finds)? {
                    return Ok(false);
                }
                matched_all(alloc, xs, ys, finds)
            }
        },
    }
}
