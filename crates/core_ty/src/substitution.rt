ghost use Rattle.std.specs.Prelude.{◌≡◌, map, IfOk};
ghost use Rattle.core_ty.specs.Types.{param};
ghost use Rattle.core_ty.specs.Substitution.{substitute};

use crate::{Ty, TyNode};
use aen_base::{Boxed, List, NoMem, at};
use std::alloc::Global;

/// The type with each type parameter replaced by the type in its place of `args`. A parameter that
/// has none there stays. The only error is want of memory.
#[cycle(substitution)]
#[tactic(auto, using(crate::proofs::Items::mapped))]
pub fn subst(alloc: Global, ty: &Ty, args: &[Ty]) -> Result<Ty, NoMem>
    ensures { IfOk result (λ t. t ≡ substitute args.now ty.now) }
{
    let node = match &ty.node {
        TyNode::Int(int) => TyNode::Int(*int),
        TyNode::Bool => TyNode::Bool,
        TyNode::Unit => TyNode::Unit,
        TyNode::Tuple(parts) => TyNode::Tuple(subst_all(alloc, parts.as_slice(), args)?),
        TyNode::Named(decl, parts) => TyNode::Named(
            *decl,
            subst_all(alloc, parts.as_slice(), args)?,
        ),
        TyNode::Param(number) => return argument(alloc, *number, args),
        TyNode::Boxed(inner) => TyNode::Boxed(subst_boxed(alloc, inner, args)?),
        TyNode::Ref(region, mutable, inner) => {
            TyNode::Ref(*region, *mutable, subst_boxed(alloc, inner, args)?)
        }
    };
    Ok(Ty { node })
}

#[cycle(substitution)]
fn subst_all(alloc: Global, types: &[Ty], args: &[Ty]) -> Result<List<Ty>, NoMem>
    ensures { IfOk result (λ ts. ts ≡ map (substitute args.now) types.now) }
{
    let mut all = List::new(alloc);
    for ty in types {
        all.push(subst(alloc, ty, args)?)?;
    }
    Ok(all)
}

#[cycle(substitution)]
fn subst_boxed(alloc: Global, inner: &Boxed<Ty>, args: &[Ty]) -> Result<Boxed<Ty>, NoMem>
    ensures { IfOk result (λ t. t ≡ substitute args.now inner.now) }
{
    let replaced = subst(alloc, inner.get(), args)?;
    Boxed::new(alloc, replaced)
}

/// What stands for a type parameter.
fn argument(alloc: Global, number: u32, args: &[Ty]) -> Result<Ty, NoMem>
    ensures { IfOk result (λ t. t ≡ substitute args.now (param number)) }
{
    match at(args, number as usize) {
        Some(ty) => ty.try_clone(alloc),
        None => Ok(Ty {
            node: TyNode::Param(number),
        }),
    }
}
