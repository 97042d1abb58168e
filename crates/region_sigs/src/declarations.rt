//! The declared types of a program.

ghost use Rattle.std.specs.Prelude.{◌≡◌, IfOk};
ghost use Rattle.region_sigs.specs.Gives.{Gives, NeverNoRegion};
ghost use Rattle.region_sigs.specs.Walks as walks;
ghost use Rattle.type_rules.specs.Declarations as spec;

use crate::RegionFault;
use crate::standing::Standing;
use crate::types::type_of;
use aen_base::{List, Name, NoMem};
use core_ty::{Ty, TypeDecl, Variant};
use rust_ast::Resolved;
use rust_ast::resolution::Declared;
use rust_ast::written::Written;
use std::alloc::Global;

/// A copy of each name. The only error is want of memory.
fn copied(alloc: Global, names: &[Name]) -> Result<List<Name>, NoMem>
    ensures { IfOk result (λ all. all ≡ names.now) }
{
    let mut all = List::new(alloc);
    for name in names {
        all.push(name.try_clone(alloc)?)?;
    }
    Ok(all)
}

/// A field, in whose type no borrow may stand.
fn field_of(
    alloc: Global,
    types: &List<Declared>,
    field: &(Name, Written),
) -> Result<(Name, Ty), RegionFault>
    ensures { Gives (walks.field_written (spec.parameter_numbers types.now) field.now) result }
{
    let (ty, _) = type_of(alloc, types, Standing::Plain, true, &field.1, 0)?;
    let name = field.0.try_clone(alloc)?;
    Ok((name, ty))
}

/// Fields in written order.
fn fields_of(
    alloc: Global,
    types: &List<Declared>,
    fields: &[(Name, Written)],
) -> Result<List<(Name, Ty)>, RegionFault>
    ensures { Gives (spec.fields_written (spec.parameter_numbers types.now) fields.now) result }
{
    let mut done = List::new(alloc);
    for i in 0..fields.len() {
        let field = field_of(alloc, types, &fields[i])?;
        done.push(field)?;
    }
    Ok(done)
}

/// A variant.
fn variant_of(
    alloc: Global,
    types: &List<Declared>,
    variant: &(Name, List<(Name, Written)>),
) -> Result<Variant, RegionFault>
    ensures { Gives (walks.variant_written (spec.parameter_numbers types.now) variant.now) result }
{
    let fields = fields_of(alloc, types, variant.1.as_slice())?;
    let name = variant.0.try_clone(alloc)?;
    Ok(Variant { name, fields })
}

/// Variants in written order.
fn variants_of(
    alloc: Global,
    types: &List<Declared>,
    variants: &[(Name, List<(Name, Written)>)],
) -> Result<List<Variant>, RegionFault>
    ensures { Gives (spec.variants_written (spec.parameter_numbers types.now) variants.now) result }
{
    let mut done = List::new(alloc);
    for i in 0..variants.len() {
        let variant = variant_of(alloc, types, &variants[i])?;
        done.push(variant)?;
    }
    Ok(done)
}

/// A declared type.
fn declaration(
    alloc: Global,
    types: &List<Declared>,
    declared: &Declared,
) -> Result<TypeDecl, RegionFault>
    ensures { Gives (walks.declaration (spec.parameter_numbers types.now) declared.now) result }
{
    let variants = variants_of(alloc, types, declared.variants.as_slice())?;
    let name = declared.name.try_clone(alloc)?;
    let params = copied(alloc, declared.params.as_slice())?;
    Ok(TypeDecl {
        name,
        span: declared.span,
        params,
        is_struct: declared.is_struct,
        variants,
    })
}

/// These declared types, of a program's.
fn declarations(
    alloc: Global,
    types: &List<Declared>,
    these: &[Declared],
) -> Result<List<TypeDecl>, RegionFault>
    ensures { Gives (spec.declarations (spec.parameter_numbers types.now) these.now) result }
{
    let mut done = List::new(alloc);
    for i in 0..these.len() {
        let decl = declaration(alloc, types, &these[i])?;
        done.push(decl)?;
    }
    Ok(done)
}

/// The declared types of a program in source order, or the first fault in them.
///
/// # Errors
///
/// At the first type, in written order and parts before the whole: `NestedBorrow` at a reference,
/// since none may stand in a declared type; `Arity` at a type with a wrong number of arguments;
/// `Limit` where a type has more than 1,000 nodes. Lifetimes mean nothing there, so `NoRegion` never
/// comes. `Memory` may come at any program.
#[tactic(auto, unfolding(type_rules::specs::Declarations::declared_types))]
pub fn decls(alloc: Global, program: &Resolved) -> Result<List<TypeDecl>, RegionFault>
    ensures value { Gives (spec.declared_types program.now) result }
    ensures never_no_region { NeverNoRegion result }
{
    let types = program.types.as_slice();
    declarations(alloc, &program.types, types)
}
