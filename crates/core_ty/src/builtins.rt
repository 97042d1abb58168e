ghost use Rattle.std.specs.Prelude.{◌≡◌, ◌∷◌, ◌++◌, true, IfOk};
ghost use Rattle.core_ty.specs.Types.{param, ref};
ghost use Rattle.core_ty.specs.Signatures.{builtin_of};

use crate::{Sig, Ty, TyNode};
use aen_base::{Boxed, Builtin, List, NoMem, RegionId};
use std::alloc::Global;

/// The signature of a built-in function: `Box::new<T>(T) -> Box<T>`,
/// `mem::replace<'a, T>(&'a mut T, T) -> T`, `mem::swap<'a, 'b, T>(&'a mut T, &'b mut T)`. The only
/// error is want of memory.
pub fn builtin_sig(alloc: Global, builtin: Builtin) -> Result<Sig, NoMem>
    ensures { IfOk result (λ s. s ≡ builtin_of builtin) }
{
    let mut params = List::new(alloc);
    match builtin {
        Builtin::BoxNew => {
            params.push(parameter())?;
            let node = TyNode::Boxed(Boxed::new(alloc, parameter())?);
            Ok(Sig {
                type_params: 1,
                regions: 0,
                params,
                result: Ty { node },
            })
        }
        Builtin::Replace => {
            params.push(mutable_to(alloc, 0)?)?;
            params.push(parameter())?;
            Ok(Sig {
                type_params: 1,
                regions: 1,
                params,
                result: parameter(),
            })
        }
        Builtin::Swap => {
            params.push(mutable_to(alloc, 0)?)?;
            params.push(mutable_to(alloc, 1)?)?;
            Ok(Sig {
                type_params: 1,
                regions: 2,
                params,
                result: Ty { node: TyNode::Unit },
            })
        }
    }
}

/// The only type parameter.
fn parameter() -> Ty
    ensures { result ≡ param 0 }
{
    Ty {
        node: TyNode::Param(0),
    }
}

/// `&mut T` with this region.
fn mutable_to(alloc: Global, region: u32) -> Result<Ty, NoMem>
    ensures { IfOk result (λ t. t ≡ ref (record { 0 = region }) true (param 0)) }
{
    let node = TyNode::Ref(RegionId(region), true, Boxed::new(alloc, parameter())?);
    Ok(Ty { node })
}
