ghost use Rattle.std.specs.Prelude.{◌≡◌, ◌+◌, [], ◌++◌, IfOk, OnOk};
ghost use Rattle.core_ty.specs.Types.{tys};
ghost use Rattle.core_ty.specs.Positions as spec;

use crate::{Ty, TyNode};
use aen_base::{List, NoMem, RegionId};
use std::alloc::Global;

/// A place in a type at which a reference stands.
#[derive(Drop)]
pub struct Position {
    /// The numbers of the tuple parts that lead there.
    pub path: List<u32>,
    pub region: RegionId,
    pub mutable: bool,
    /// What the reference leads to.
    pub inner: Ty,
}

/// The reference positions of a type, in written order. References stand only at parts of tuples.
/// The only error is want of memory.
pub fn positions(alloc: Global, ty: &Ty) -> Result<List<Position>, NoMem>
    ensures { IfOk result (λ ps. ps ≡ spec.positions_at [] ty.now) }
{
    let mut found = List::new(alloc);
    add_positions(alloc, ty, &[], &mut found)?;
    Ok(found)
}

#[cycle(positions)]
fn add_positions(
    alloc: Global,
    ty: &Ty,
    path: &[u32],
    found: &mut List<Position>,
) -> Result<(), NoMem>
    ensures { OnOk result (found.new ≡ found.old ++ spec.positions_at path.now ty.now) }
{
    match &ty.node {
        TyNode::Tuple(parts) => add_all(alloc, parts.as_slice(), path, found),
        TyNode::Ref(region, mutable, inner) => found.push(Position {
            path: List::from_slice(alloc, path)?,
            region: *region,
            mutable: *mutable,
            inner: inner.get().try_clone(alloc)?,
        }),
        TyNode::Int(_)
        | TyNode::Bool
        | TyNode::Unit
        | TyNode::Named(_, _)
        | TyNode::Param(_)
        | TyNode::Boxed(_) => Ok(()),
    }
}

#[cycle(positions)]
fn add_all(
    alloc: Global,
    parts: &[Ty],
    path: &[u32],
    found: &mut List<Position>,
) -> Result<(), NoMem>
    ensures { OnOk result (found.new ≡ found.old ++ spec.positions_from path.now 0 (tys parts.now)) }
{
    let mut place = 0u32;
    for part in parts {
        let mut part_path = List::from_slice(alloc, path)?;
        part_path.push(place)?;
        add_positions(alloc, part, part_path.as_slice(), found)?;
        place = next(place)?;
    }
    Ok(())
}

/// The next number. A tuple of 2 ^ 32 parts has no room in memory.
fn next(number: u32) -> Result<u32, NoMem>
    ensures { IfOk result (λ n. n ≡ number + 1) }
{
    number.checked_add(1).ok_or(NoMem)
}
