ghost use Rattle.std.specs.Prelude.{◌≡◌, IfOk};

use crate::{Ty, TyNode};
use aen_base::{Boxed, List, NoMem};
use std::alloc::Global;

impl Ty {
    /// A copy of the type. The only error is want of memory.
    pub fn try_clone(&self, alloc: Global) -> Result<Ty, NoMem>
        ensures { IfOk result (λ t. t ≡ self.now) }
    {
        copy_ty(alloc, self)
    }
}

/// A copy of each of these types, in order. The only error is want of memory.
#[cycle(copy)]
pub fn copy_tys(alloc: Global, types: &[Ty]) -> Result<List<Ty>, NoMem>
    ensures { IfOk result (λ ts. ts ≡ types.now) }
{
    let mut all = List::new(alloc);
    for ty in types {
        all.push(copy_ty(alloc, ty)?)?;
    }
    Ok(all)
}

#[cycle(copy)]
fn copy_ty(alloc: Global, ty: &Ty) -> Result<Ty, NoMem>
    ensures { IfOk result (λ t. t ≡ ty.now) }
{
    let node = match &ty.node {
        TyNode::Int(int) => TyNode::Int(*int),
        TyNode::Bool => TyNode::Bool,
        TyNode::Unit => TyNode::Unit,
        TyNode::Tuple(parts) => TyNode::Tuple(copy_tys(alloc, parts.as_slice())?),
        TyNode::Named(decl, args) => TyNode::Named(*decl, copy_tys(alloc, args.as_slice())?),
        TyNode::Param(number) => TyNode::Param(*number),
        TyNode::Boxed(inner) => TyNode::Boxed(copy_boxed(alloc, inner)?),
        TyNode::Ref(region, mutable, inner) => TyNode::Ref(
            *region,
            *mutable,
            copy_boxed(alloc, inner)?,
        ),
    };
    Ok(Ty { node })
}

#[cycle(copy)]
fn copy_boxed(alloc: Global, inner: &Boxed<Ty>) -> Result<Boxed<Ty>, NoMem>
    ensures { IfOk result (λ t. t ≡ inner.now) }
{
    let copied = copy_ty(alloc, inner.get())?;
    Boxed::new(alloc, copied)
}
