//! The lifetimes and type parameters that an item declares, as its own types see them.

ghost use Rattle.std.specs.Prelude.{◌≡◌, IfOk};
ghost use Rattle.name_tables.specs.Tables as spec;

use crate::by_name::ByName;
use crate::gathering::names_of;
use crate::tables::Generics;
use aen_base::{List, NoMem};
use rust_ast::Ident;
use rust_ast::program::Function;
use std::alloc::Global;

/// The type parameters of a declared type, which has no lifetimes.
///
/// # Errors
///
/// `NoMem` for want of memory alone.
pub fn only_parameters(alloc: Global, params: &[Ident]) -> Result<Generics, NoMem>
    ensures { IfOk result (λ g. g ≡ spec.only_parameters params.now) }
{
    Ok(Generics {
        lifetimes: ByName::new(alloc, List::new(alloc))?,
        type_params: ByName::new(alloc, names_of(alloc, params)?)?,
    })
}

/// The lifetimes and type parameters of a function.
///
/// # Errors
///
/// `NoMem` for want of memory alone.
pub fn function_generics(alloc: Global, f: &Function) -> Result<Generics, NoMem>
    ensures { IfOk result (λ g. g ≡ spec.function_generics f.now) }
{
    Ok(Generics {
        lifetimes: ByName::new(alloc, names_of(alloc, f.lifetimes.as_slice())?)?,
        type_params: ByName::new(alloc, names_of(alloc, f.type_params.as_slice())?)?,
    })
}
