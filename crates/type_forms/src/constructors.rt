//! The parts of calls and constructors: which parameter, or which field, each argument has.
ghost use Rattle.std.specs.Prelude.{◌≡◌, IfOk, slice_get};
ghost use Rattle.type_forms.specs.Inits as inits;
ghost use Rattle.type_values.specs.Gives.{Answers};

use aen_base::{Name, NoMem, Span, at};
use core_ty::Ty;
use rust_ast::resolved::Expr;
use rust_ast::spelled::Val;
use std::alloc::Global;
use type_rules::KindOfFault;
use type_values::TypeFault;
use type_values::fields::field_named;

/// A place as a number. 2 ^ 32 parts have no room in memory.
pub fn number_of(place: usize) -> Result<u32, NoMem>
    ensures { IfOk result (λ n. n ≡ place) }
{
    match u32::try_from(place) {
        Ok(number) => Ok(number),
        Err(_) => Err(NoMem),
    }
}

/// The type of a parameter, if there is one in this place. The only error is want of memory.
pub fn param_at(alloc: Global, params: &[Ty], place: usize) -> Result<Option<Ty>, NoMem>
    ensures { IfOk result (λ o. o ≡ slice_get params.now place) }
{
    match at(params, place) {
        None => Ok(None),
        Some(ty) => Ok(Some(ty.try_clone(alloc)?)),
    }
}

/// Whether the field with this number was written before.
fn is_written(number: u32, before: &[(u32, Val)]) -> bool
    ensures { result ≡ inits.is_written number before.now }
{
    for field in before {
        if field.0 == number {
            return true;
        }
    }
    false
}

/// The number and the type of the field that a named argument has, after these arguments. At fault at
/// the name where there is no such field, or where it was written before.
pub fn field_of_init(
    alloc: Global,
    init: &(Span, Name, Expr),
    fields: &[(Name, Ty)],
    before: &[(u32, Val)],
) -> Result<(u32, Option<Ty>), TypeFault>
    ensures { Answers (inits.field_of_init init.now.0 init.now.1 fields.now before.now) result }
{
    match field_named(alloc, &init.1, fields)? {
        None => Err(TypeFault::At(init.0, KindOfFault::Field)),
        Some((number, ty)) => {
            if is_written(number, before) {
                return Err(TypeFault::At(init.0, KindOfFault::Field));
            }
            Ok((number, Some(ty)))
        }
    }
}
