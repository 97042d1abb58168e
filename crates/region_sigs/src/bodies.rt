//! Types that are written in bodies, where lifetimes mean nothing.

ghost use Rattle.std.specs.Prelude.{◌≡◌};
ghost use Rattle.region_sigs.specs.Gives.{Gives};
ghost use Rattle.region_sigs.specs.InBodies.{plain_arguments};
ghost use Rattle.rust_ast.specs.Written.{writtens};
ghost use Rattle.type_rules.specs.TypesInBodies as spec;

use crate::RegionFault;
use crate::standing::Standing;
use crate::types::{type_of, types_of};
use aen_base::List;
use core_ty::{Ty, TypeDecl};
use rust_ast::written::Written;
use std::alloc::Global;

/// A type in a body.
///
/// # Errors
///
/// At the first type, in written order and parts before the whole: `NestedBorrow` at a reference
/// inside `Box`, a type argument or a reference; `Arity` at a type with a wrong number of arguments;
/// `Limit` where a type has more than 1,000 nodes. `Memory` may come at any type.
pub fn body_type(alloc: Global, decls: &List<TypeDecl>, ty: &Written) -> Result<Ty, RegionFault>
    ensures { Gives (spec.plain_type decls.now ty.now) result }
{
    let (found, _) = type_of(alloc, decls, Standing::Plain, false, ty, 0)?;
    Ok(found)
}

/// The types of a list of type arguments in a body, in which no borrow may stand; their errors are
/// those of `body_type`.
#[tactic(auto, using(core_ty::specs::Types::tys_back))]
pub fn body_arguments(
    alloc: Global,
    decls: &List<TypeDecl>,
    items: &[Written],
) -> Result<List<Ty>, RegionFault>
    ensures { Gives (plain_arguments decls.now (writtens items.now)) result }
{
    let (found, _) = types_of(alloc, decls, Standing::Plain, true, items, 0)?;
    Ok(found)
}
