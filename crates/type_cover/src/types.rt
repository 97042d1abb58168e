//! The types of parts.

ghost use Rattle.std.specs.Prelude.{◌≡◌, IfOk};
ghost use Rattle.type_rules.specs.Skeletons as spec;

use aen_base::{List, Name, NoMem};
use core_ty::{Ty, TyNode, subst};
use std::alloc::Global;

/// What a reference leads to; another type itself.
pub(crate) fn content(ty: &Ty) -> &Ty
    ensures { result.now ≡ spec.content ty.now }
{
    match &ty.node {
        TyNode::Ref(_, _, inner) => inner.get(),
        TyNode::Int(_) => ty,
        TyNode::Bool => ty,
        TyNode::Unit => ty,
        TyNode::Tuple(_) => ty,
        TyNode::Named(_, _) => ty,
        TyNode::Param(_) => ty,
        TyNode::Boxed(_) => ty,
    }
}

/// The types of fields with these arguments. The only error is want of memory.
pub(crate) fn field_types(
    alloc: Global,
    args: &[Ty],
    fields: &[(Name, Ty)],
) -> Result<List<Ty>, NoMem>
    ensures { IfOk result (λ types. types ≡ spec.field_types args.now fields.now) }
{
    let mut types = List::new(alloc);
    for field in fields {
        types.push(subst(alloc, &field.1, args)?)?;
    }
    Ok(types)
}
