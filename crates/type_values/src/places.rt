//! Places that are built of others. The only error of each is want of memory.
ghost use Rattle.std.specs.Prelude.{◌≡◌, IfOk};
ghost use Rattle.rust_ast.specs.Spelled as s;

use aen_base::{Boxed, NoMem};
use rust_ast::spelled::{Place, PlaceNode, Val};
use std::alloc::Global;

/// A field of a place, by its number.
pub fn field(alloc: Global, place: Place, number: u32) -> Result<Place, NoMem>
    ensures { IfOk result (λ p. p ≡ s.field place number) }
{
    let node = PlaceNode::Field(Boxed::new(alloc, place)?, number);
    Ok(Place { node })
}

/// What is in the box at a place.
pub fn unbox(alloc: Global, place: Place) -> Result<Place, NoMem>
    ensures { IfOk result (λ p. p ≡ s.unbox place) }
{
    let node = PlaceNode::Unbox(Boxed::new(alloc, place)?);
    Ok(Place { node })
}

/// What the reference at a place leads to.
pub fn through(alloc: Global, place: Place) -> Result<Place, NoMem>
    ensures { IfOk result (λ p. p ≡ s.through place) }
{
    let node = PlaceNode::Through(Boxed::new(alloc, place)?);
    Ok(Place { node })
}

/// What a reference that stands at no place leads to.
pub fn through_value(alloc: Global, held: Val) -> Result<Place, NoMem>
    ensures { IfOk result (λ p. p ≡ s.through_value held) }
{
    let node = PlaceNode::ThroughValue(Boxed::new(alloc, held)?);
    Ok(Place { node })
}
