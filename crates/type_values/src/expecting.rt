//! What is expected of an expression.
ghost use Rattle.std.specs.Prelude.{◌≡◌, IfOk, option_copied};
ghost use Rattle.type_rules.specs.Expecting as spec;

use crate::type_facts::{reaches, same};
use aen_base::NoMem;
use core_ty::{Ty, TyNode};
use std::alloc::Global;
use type_rules::forms::{Expected, ExpectedNode};

/// Whether a value of this type is refused where this is expected.
pub fn is_mismatch(expected: &Expected, ty: &Ty) -> bool
    ensures { result ≡ spec.is_mismatch expected.now ty.now }
{
    match &expected.node {
        ExpectedNode::None => false,
        ExpectedNode::Hint(wanted) => !same(ty, wanted),
        ExpectedNode::Want(wanted) => !fits_wanted(wanted, ty),
    }
}

/// Whether it fits where this type is wanted.
fn fits_wanted(wanted: &Ty, ty: &Ty) -> bool
    ensures { result ≡ spec.fits_wanted wanted.now ty.now }
{
    match (&wanted.node, &ty.node) {
        (TyNode::Ref(_, mutable, inner), TyNode::Ref(_, from, content)) => (!*mutable || *from)
            && reaches(content.get(), inner.get()),
        _ => same(ty, wanted),
    }
}

/// What is expected of an operand. The only error is want of memory, here and below.
pub fn for_operand(alloc: Global, expected: &Expected) -> Result<Expected, NoMem>
    ensures { IfOk result (λ x. x ≡ spec.for_operand expected.now) }
{
    match &expected.node {
        ExpectedNode::None => Ok(Expected {
            node: ExpectedNode::None,
        }),
        ExpectedNode::Hint(ty) => hint_unless_reference(alloc, ty),
        ExpectedNode::Want(ty) => hint_unless_reference(alloc, ty),
    }
}

fn hint_unless_reference(alloc: Global, ty: &Ty) -> Result<Expected, NoMem>
    ensures { IfOk result (λ x. x ≡ spec.hint_unless_reference ty.now) }
{
    let node = match &ty.node {
        TyNode::Ref(_, _, _) => ExpectedNode::None,
        _ => ExpectedNode::Hint(ty.try_clone(alloc)?),
    };
    Ok(Expected { node })
}

/// What is expected where a type is wanted, if there is one.
pub fn want_type(alloc: Global, ty: Option<&Ty>) -> Result<Expected, NoMem>
    ensures { IfOk result (λ x. x ≡ spec.want_type (option_copied ty.entry)) }
{
    let node = match ty {
        Some(ty) => ExpectedNode::Want(ty.try_clone(alloc)?),
        None => ExpectedNode::None,
    };
    Ok(Expected { node })
}

/// What is expected of a part of this type, where this is expected of the whole.
pub fn for_part(alloc: Global, expected: &Expected, ty: &Ty) -> Result<Expected, NoMem>
    ensures { IfOk result (λ x. x ≡ spec.for_part expected.now ty.now) }
{
    let node = match &expected.node {
        ExpectedNode::None => ExpectedNode::None,
        ExpectedNode::Hint(_) => ExpectedNode::Hint(ty.try_clone(alloc)?),
        ExpectedNode::Want(_) => ExpectedNode::Want(ty.try_clone(alloc)?),
    };
    Ok(Expected { node })
}

/// A copy of the type that is expected, if one is.
pub fn expected_copy(alloc: Global, expected: &Expected) -> Result<Option<Ty>, NoMem>
    ensures { IfOk result (λ o. o ≡ spec.expected_type expected.now) }
{
    match &expected.node {
        ExpectedNode::None => Ok(None),
        ExpectedNode::Hint(ty) => Ok(Some(ty.try_clone(alloc)?)),
        ExpectedNode::Want(ty) => Ok(Some(ty.try_clone(alloc)?)),
    }
}

/// What an arm is expected to have, where `found` is the type of the first before it that ends.
pub fn for_arm(alloc: Global, expected: &Expected, found: Option<&Ty>) -> Result<Expected, NoMem>
    ensures { IfOk result (λ x. x ≡ spec.for_arm expected.now (option_copied found.entry)) }
{
    let node = match &expected.node {
        ExpectedNode::None => match found {
            Some(ty) => ExpectedNode::Hint(ty.try_clone(alloc)?),
            None => ExpectedNode::None,
        },
        ExpectedNode::Hint(ty) => ExpectedNode::Hint(ty.try_clone(alloc)?),
        ExpectedNode::Want(ty) => ExpectedNode::Want(ty.try_clone(alloc)?),
    };
    Ok(Expected { node })
}

/// The type of a loop, or of arms: what is expected, else what was found first, else unit.
pub fn settled(expected: Option<Ty>, found: Option<Ty>) -> Ty
    ensures { result ≡ spec.settled expected found }
{
    match expected {
        Some(ty) => ty,
        None => match found {
            Some(ty) => ty,
            None => Ty { node: TyNode::Unit },
        },
    }
}
