//! The limit on the nodes of a type.

ghost use Rattle.std.specs.Prelude.{◌≡◌, ◌+◌, ◌<◌, MatchOption};
ghost use Rattle.core_ty.specs.Types.{tys};
ghost use Rattle.region_sigs.specs.Gives.{Gives};
ghost use Rattle.type_rules.specs.TypeFacts as facts;
ghost use Rattle.type_rules.specs.WrittenTypes as spec;

use crate::RegionFault;
use aen_base::Which;
use core_ty::{Ty, TyNode};

/// The most nodes of a type.
const NODES: u32 = 1_000;

/// What is left of a count after the nodes of a type; none where these are more. The time is that of
/// the count, however large the type.
#[cycle(sizes)]
fn left_after(ty: &Ty, count: u32) -> Option<u32>
    ensures { MatchOption result (count < facts.size ty.now) (λ rest. rest + facts.size ty.now ≡ count) }
{
    match &ty.node {
        TyNode::Int(_) | TyNode::Bool | TyNode::Unit | TyNode::Param(_) => count.checked_sub(1),
        TyNode::Tuple(parts) => left_after_all(parts.as_slice(), count)?.checked_sub(1),
        TyNode::Named(_, args) => left_after_all(args.as_slice(), count)?.checked_sub(1),
        TyNode::Boxed(content) => left_after(content.get(), count)?.checked_sub(1),
        TyNode::Ref(_, _, content) => left_after(content.get(), count)?.checked_sub(1),
    }
}

/// What is left of a count after the nodes of these types.
#[cycle(sizes)]
fn left_after_all(types: &[Ty], count: u32) -> Option<u32>
    ensures { MatchOption result (count < facts.size_all (tys types.now)) (λ rest. rest + facts.size_all (tys types.now) ≡ count) }
{
    let mut rest = count;
    for ty in types {
        rest = left_after(ty, rest)?;
    }
    Some(rest)
}

/// Whether a type has more nodes than a type may have.
#[tactic(auto, unfolding(type_rules::specs::TypeFacts::is_large))]
pub fn is_large(ty: &Ty) -> bool
    ensures { result ≡ facts.is_large ty.now }
{
    match left_after(ty, NODES) {
        None => true,
        Some(_) => false,
    }
}

/// A type with the next new region, if the type is within the limit.
pub(crate) fn within_limit(ty: Ty, next: u32) -> Result<(Ty, u32), RegionFault>
    ensures { Gives (spec.as_type ty next) result }
{
    if is_large(&ty) {
        return Err(RegionFault::Limit(Which::TypeNodes, 1_001));
    }
    Ok((ty, next))
}
