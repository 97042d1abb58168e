//! The references in parameters.

ghost use Rattle.std.specs.Prelude.{◌≡◌, ◌==◌, IfOk};
ghost use Rattle.std.specs.List.{list_all};
ghost use Rattle.core_ty.specs.declared.places.Position as places;
ghost use Rattle.type_rules.specs.Signatures as spec;

use aen_base::{List, NoMem, at};
use core_ty::{Position, Ty, positions};
use std::alloc::Global;

/// The references in these types, in written order. The only error is want of memory.
fn references_in(alloc: Global, types: &[Ty]) -> Result<List<Position>, NoMem>
    ensures { IfOk result (λ ps. ps ≡ spec.positions_in types.now) }
{
    let mut found = List::new(alloc);
    for ty in types {
        found.append(positions(alloc, ty)?)?;
    }
    Ok(found)
}

/// Whether all these have one region.
fn all_have(region: u32, found: &[Position]) -> bool
    ensures { result ≡ list_all (λ (q : places.Position). q.region.0 == region) found.now }
{
    for position in found {
        if position.region.0 != region {
            return false;
        }
    }
    true
}

/// The one region of these references, if they have one.
fn common_region(found: &[Position]) -> Option<u32>
    ensures { result ≡ spec.one_region found.now }
{
    match at(found, 0) {
        None => None,
        Some(first) => {
            if all_have(first.region.0, found) {
                Some(first.region.0)
            } else {
                None
            }
        }
    }
}

/// The one region of parameters of these types, if they have one. The only error is want of memory.
pub(crate) fn one_region(alloc: Global, types: &[Ty]) -> Result<Option<u32>, NoMem>
    ensures { IfOk result (λ one. one ≡ spec.one_region (spec.positions_in types.now)) }
{
    let found = references_in(alloc, types)?;
    Ok(common_region(found.as_slice()))
}
