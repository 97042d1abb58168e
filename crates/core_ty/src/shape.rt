ghost use Rattle.std.specs.Prelude.{◌≡◌};
ghost use Rattle.core_ty.specs.Types.{tys};
ghost use Rattle.core_ty.specs.Shape as spec;

use crate::{Ty, TyNode};

/// Whether a use of a value of this type copies it: integers, bool, unit, `&T`, and tuples of these.
#[cycle(copying)]
pub fn is_copy(ty: &Ty) -> bool
    ensures { result ≡ spec.is_copy ty.now }
{
    match &ty.node {
        TyNode::Int(_) | TyNode::Bool | TyNode::Unit => true,
        TyNode::Tuple(parts) => all_copy(parts.as_slice()),
        TyNode::Ref(_, mutable, _) => !*mutable,
        TyNode::Named(_, _) | TyNode::Param(_) | TyNode::Boxed(_) => false,
    }
}

#[cycle(copying)]
fn all_copy(parts: &[Ty]) -> bool
    ensures { result ≡ spec.all_copy (tys parts.now) }
{
    for part in parts {
        if !is_copy(part) {
            return false;
        }
    }
    true
}
