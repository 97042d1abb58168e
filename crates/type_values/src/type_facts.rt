//! What is asked of types.
ghost use Rattle.std.specs.Prelude.{◌≡◌, IfOk};
ghost use Rattle.core_ty.specs.Types as types;
ghost use Rattle.type_rules.specs.TypeFacts as spec;

use aen_base::{Boxed, NoMem, RegionId};
use core_ty::{Ty, TyNode};
use std::alloc::Global;

/// Whether both are one type but for the regions of references.
#[cycle(same)]
pub fn same(a: &Ty, b: &Ty) -> bool
    ensures { result ≡ spec.same a.now b.now }
{
    match (&a.node, &b.node) {
        (TyNode::Int(x), TyNode::Int(y)) => *x == *y,
        (TyNode::Bool, TyNode::Bool) => true,
        (TyNode::Unit, TyNode::Unit) => true,
        (TyNode::Tuple(x), TyNode::Tuple(y)) => same_all(x.as_slice(), y.as_slice()),
        (TyNode::Named(d, x), TyNode::Named(e, y)) => d.0 == e.0
            && same_all(x.as_slice(), y.as_slice()),
        (TyNode::Param(x), TyNode::Param(y)) => x == y,
        (TyNode::Boxed(x), TyNode::Boxed(y)) => same(x.get(), y.get()),
        (TyNode::Ref(_, true, x), TyNode::Ref(_, true, y)) => same(x.get(), y.get()),
        (TyNode::Ref(_, false, x), TyNode::Ref(_, false, y)) => same(x.get(), y.get()),
        _ => false,
    }
}

/// Whether both lists have the same types in the same order, but for the regions of references.
#[cycle(same)]
pub fn same_all(a: &[Ty], b: &[Ty]) -> bool
    ensures { result ≡ spec.same_all (types.tys a.now) (types.tys b.now) }
{
    match a {
        [] => is_empty(b),
        [x, xs @ ..] => match b {
            [] => false,
            [y, ys @ ..] => same(x, y) && same_all(xs, ys),
        },
    }
}

/// Whether the list has no types.
fn is_empty(b: &[Ty]) -> bool
    ensures { result ≡ spec.same_all types.no_tys (types.tys b.now) }
{
    match b {
        [] => true,
        [_first, _rest @ ..] => false,
    }
}

/// Whether the wanted type stands in a type, perhaps inside boxes.
#[cycle(reaches)]
pub fn reaches(ty: &Ty, wanted: &Ty) -> bool
    ensures { result ≡ spec.reaches ty.now wanted.now }
{
    match &ty.node {
        TyNode::Boxed(inner) => same(ty, wanted) || reaches(inner.get(), wanted),
        _ => same(ty, wanted),
    }
}

/// Whether a reference stands in the type.
#[cycle(references)]
pub fn has_reference(ty: &Ty) -> bool
    ensures { result ≡ spec.has_reference ty.now }
{
    match &ty.node {
        TyNode::Int(_) => false,
        TyNode::Bool => false,
        TyNode::Unit => false,
        TyNode::Tuple(parts) => any_reference(parts.as_slice()),
        TyNode::Named(_, args) => any_reference(args.as_slice()),
        TyNode::Param(_) => false,
        TyNode::Boxed(inner) => has_reference(inner.get()),
        TyNode::Ref(_, _, _) => true,
    }
}

/// Whether a reference stands in one of the types.
#[cycle(references)]
pub fn any_reference(all: &[Ty]) -> bool
    ensures { result ≡ spec.any_reference (types.tys all.now) }
{
    match all {
        [] => false,
        [first, rest @ ..] => has_reference(first) || any_reference(rest),
    }
}

/// Whether it is a reference.
pub fn is_reference(ty: &Ty) -> bool
    ensures { result ≡ spec.is_reference ty.now }
{
    match &ty.node {
        TyNode::Ref(_, _, _) => true,
        _ => false,
    }
}

/// Whether it is an integer type.
pub fn is_integer(ty: &Ty) -> bool
    ensures { result ≡ spec.is_integer ty.now }
{
    match &ty.node {
        TyNode::Int(_) => true,
        _ => false,
    }
}

/// Whether it is an integer type or `bool`.
pub fn is_integer_or_bool(ty: &Ty) -> bool
    ensures { result ≡ spec.is_integer_or_bool ty.now }
{
    match &ty.node {
        TyNode::Int(_) => true,
        TyNode::Bool => true,
        _ => false,
    }
}

/// Whether it is a signed integer type.
pub fn is_signed_integer(ty: &Ty) -> bool
    ensures { result ≡ spec.is_signed_integer ty.now }
{
    match &ty.node {
        TyNode::Int(int) => int.is_signed(),
        _ => false,
    }
}

/// `&` or `&mut` to a type; regions mean nothing in bodies. The only error is want of memory.
pub fn reference_to(alloc: Global, mutable: bool, ty: &Ty) -> Result<Ty, NoMem>
    ensures { IfOk result (λ t. t ≡ types.ref spec.no_region mutable ty.now) }
{
    let content = ty.try_clone(alloc)?;
    let node = TyNode::Ref(RegionId(0), mutable, Boxed::new(alloc, content)?);
    Ok(Ty { node })
}
