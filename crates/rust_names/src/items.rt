//! Items with names resolved.

ghost use Rattle.std.specs.Prelude.{◌≡◌, decimal, IfOk};
ghost use Rattle.name_tables.specs.Gives.{Gives, GivesAs};
ghost use Rattle.name_tables.specs.Tables as declared;
ghost use Rattle.rust_names.specs.Resolution as spec;

use aen_base::{List, Name, NoMem, Span};
use name_tables::{Generics, Stop, Tables, function_generics, names_of, only_parameters};
use name_uses::{resolve_body, resolve_maybe_type, resolve_type};
use rust_ast::program::{self, Enum, Fields, Item, Param, Struct, Variant};
use rust_ast::resolution::{Declared, Function, Resolved, Variable};
use rust_ast::resolved::Block;
use rust_ast::source_types;
use rust_ast::written::Written;
use std::alloc::Global;

/// A field without a name: it has its place as its name.
fn placed_field(
    alloc: Global,
    tables: &Tables,
    generics: &Generics,
    ty: &source_types::Written,
    place: usize,
) -> Result<(Name, Written), Stop>
    ensures { Gives (spec.placed_field tables.now generics.now ty.now place) result }
{
    let ty = resolve_type(alloc, tables, generics, ty)?;
    let name = place_name(alloc, place)?;
    Ok((name, ty))
}

/// The name of a field that has none. The only error is want of memory.
fn place_name(alloc: Global, place: usize) -> Result<Name, NoMem>
    ensures { IfOk result (λ n. n ≡ decimal place) }
{
    let text = format!(in alloc; "{place}")?;
    Ok(Name::new(text))
}

/// Fields without names.
fn placed_fields(
    alloc: Global,
    tables: &Tables,
    generics: &Generics,
    types: &[source_types::Written],
) -> Result<List<(Name, Written)>, Stop>
    ensures { Gives (spec.read_placed tables.now generics.now 0 types.now) result }
{
    let mut done = List::new(alloc);
    for i in 0..types.len() {
        let field = placed_field(alloc, tables, generics, &types[i], i)?;
        done.push(field)?;
    }
    Ok(done)
}

/// A field with a name.
fn named_field(
    alloc: Global,
    tables: &Tables,
    generics: &Generics,
    field: &(Span, Name, source_types::Written),
) -> Result<(Name, Written), Stop>
    ensures { Gives (spec.named_field tables.now generics.now field.now) result }
{
    let ty = resolve_type(alloc, tables, generics, &field.2)?;
    let name = field.1.try_clone(alloc)?;
    Ok((name, ty))
}

/// Fields with names.
fn named_fields(
    alloc: Global,
    tables: &Tables,
    generics: &Generics,
    fields: &[(Span, Name, source_types::Written)],
) -> Result<List<(Name, Written)>, Stop>
    ensures { Gives (spec.read_named tables.now generics.now fields.now) result }
{
    let mut done = List::new(alloc);
    for i in 0..fields.len() {
        let field = named_field(alloc, tables, generics, &fields[i])?;
        done.push(field)?;
    }
    Ok(done)
}

/// The fields of a struct.
fn struct_fields(
    alloc: Global,
    tables: &Tables,
    generics: &Generics,
    fields: &Fields,
) -> Result<List<(Name, Written)>, Stop>
    ensures { Gives (spec.read_struct_fields tables.now generics.now fields.now) result }
{
    match fields {
        Fields::Named(fields) => named_fields(alloc, tables, generics, fields.as_slice()),
        Fields::Placed(types) => placed_fields(alloc, tables, generics, types.as_slice()),
    }
}

/// A struct.
#[tactic(auto, unfolding(crate::specs::Resolution::read_struct))]
fn resolve_struct(alloc: Global, tables: &Tables, s: &Struct) -> Result<Declared, Stop>
    ensures { Gives (spec.read_struct tables.now s.now) result }
{
    let generics = only_parameters(alloc, s.params.as_slice())?;
    let fields = struct_fields(alloc, tables, &generics, &s.fields)?;
    let mut variants = List::new(alloc);
    variants.push((s.name.name.try_clone(alloc)?, fields))?;
    Ok(Declared {
        name: s.name.name.try_clone(alloc)?,
        span: s.name.span,
        params: names_of(alloc, s.params.as_slice())?,
        is_struct: true,
        variants,
    })
}

/// A variant of an enum.
fn resolve_variant(
    alloc: Global,
    tables: &Tables,
    generics: &Generics,
    variant: &Variant,
) -> Result<(Name, List<(Name, Written)>), Stop>
    ensures { Gives (spec.read_variant tables.now generics.now variant.now) result }
{
    let fields = placed_fields(alloc, tables, generics, variant.fields.as_slice())?;
    let name = variant.name.name.try_clone(alloc)?;
    Ok((name, fields))
}

/// The variants of an enum.
fn resolve_variants(
    alloc: Global,
    tables: &Tables,
    generics: &Generics,
    variants: &[Variant],
) -> Result<List<(Name, List<(Name, Written)>)>, Stop>
    ensures { Gives (spec.read_variants tables.now generics.now variants.now) result }
{
    let mut done = List::new(alloc);
    for i in 0..variants.len() {
        let variant = resolve_variant(alloc, tables, generics, &variants[i])?;
        done.push(variant)?;
    }
    Ok(done)
}

/// The variants of an enum, in whose types its parameters may stand.
fn enum_variants(
    alloc: Global,
    tables: &Tables,
    e: &Enum,
) -> Result<List<(Name, List<(Name, Written)>)>, Stop>
    ensures { Gives (spec.enum_variants tables.now e.now) result }
{
    let generics = only_parameters(alloc, e.params.as_slice())?;
    let variants = e.variants.as_slice();
    resolve_variants(alloc, tables, &generics, variants)
}

/// An enum.
#[tactic(auto, unfolding(crate::specs::Resolution::read_enum))]
fn resolve_enum(alloc: Global, tables: &Tables, e: &Enum) -> Result<Declared, Stop>
    ensures { Gives (spec.read_enum tables.now e.now) result }
{
    let variants = enum_variants(alloc, tables, e)?;
    Ok(Declared {
        name: e.name.name.try_clone(alloc)?,
        span: e.name.span,
        params: names_of(alloc, e.params.as_slice())?,
        is_struct: false,
        variants,
    })
}

/// The type of a parameter.
fn param_type(
    alloc: Global,
    tables: &Tables,
    generics: &Generics,
    param: &Param,
) -> Result<Written, Stop>
    ensures { Gives (spec.param_type tables.now generics.now param.now) result }
{
    Ok(resolve_type(alloc, tables, generics, &param.ty)?)
}

/// The types of parameters.
fn param_types(
    alloc: Global,
    tables: &Tables,
    generics: &Generics,
    params: &[Param],
) -> Result<List<Written>, Stop>
    ensures { Gives (spec.read_params tables.now generics.now params.now) result }
{
    let mut done = List::new(alloc);
    for i in 0..params.len() {
        let ty = param_type(alloc, tables, generics, &params[i])?;
        done.push(ty)?;
    }
    Ok(done)
}

/// The types of a function's parameters and of its result.
fn function_types(
    alloc: Global,
    tables: &Tables,
    generics: &Generics,
    f: &program::Function,
) -> Result<(List<Written>, Option<Written>), Stop>
    ensures { GivesAs spec.types_form (spec.function_types tables.now generics.now f.now) result }
{
    let params = param_types(alloc, tables, generics, f.params.as_slice())?;
    let result = resolve_maybe_type(alloc, tables, generics, &f.result)?;
    Ok((params, result))
}

/// The types of a function, and its body.
fn typed_body(
    alloc: Global,
    tables: &Tables,
    generics: &Generics,
    f: &program::Function,
) -> Result<((List<Written>, Option<Written>), (Block, List<Variable>)), Stop>
    ensures { GivesAs spec.parts_form (spec.function_parts tables.now generics.now f.now) result }
{
    let types = function_types(alloc, tables, generics, f)?;
    let body = resolve_body(alloc, tables, generics, f)?;
    Ok((types, body))
}

/// The same with the function's lifetimes and type parameters.
fn function_parts(
    alloc: Global,
    tables: &Tables,
    f: &program::Function,
) -> Result<((List<Written>, Option<Written>), (Block, List<Variable>)), Stop>
    ensures { GivesAs spec.parts_form (spec.function_parts tables.now (declared.function_generics f.now) f.now) result }
{
    let generics = function_generics(alloc, f)?;
    typed_body(alloc, tables, &generics, f)
}

/// The name of a function, of its lifetimes and of its type parameters. The only error is want of memory.
fn function_names(
    alloc: Global,
    f: &program::Function,
) -> Result<(Name, List<Name>, List<Name>), NoMem>
    ensures own { IfOk result (λ n. n.0 ≡ f.now.name.name) }
    ensures lifetimes { IfOk result (λ n. n.1 ≡ declared.names_of f.now.lifetimes) }
    ensures type_params { IfOk result (λ n. n.2 ≡ declared.names_of f.now.type_params) }
{
    let name = f.name.name.try_clone(alloc)?;
    let lifetimes = names_of(alloc, f.lifetimes.as_slice())?;
    let type_params = names_of(alloc, f.type_params.as_slice())?;
    Ok((name, lifetimes, type_params))
}

/// A function.
#[tactic(auto, unfolding(crate::specs::Resolution::read_function))]
fn resolve_function(alloc: Global, tables: &Tables, f: &program::Function) -> Result<Function, Stop>
    ensures { Gives (spec.read_function tables.now f.now) result }
{
    let (name, lifetimes, type_params) = function_names(alloc, f)?;
    let ((params, result), (body, variables)) = function_parts(alloc, tables, f)?;
    Ok(Function {
        name,
        span: f.name.span,
        lifetimes,
        type_params,
        params,
        result,
        variables,
        body,
    })
}

/// A declared type more. The only error is want of memory.
fn with_type(so_far: Resolved, ty: Declared) -> Result<Resolved, NoMem>
    ensures { IfOk result (λ r. r ≡ spec.with_type so_far ty) }
{
    let Resolved {
        mut types,
        functions,
    } = so_far;
    types.push(ty)?;
    Ok(Resolved { types, functions })
}

/// A function more. The only error is want of memory.
fn with_function(so_far: Resolved, f: Function) -> Result<Resolved, NoMem>
    ensures { IfOk result (λ r. r ≡ spec.with_function so_far f) }
{
    let Resolved {
        types,
        mut functions,
    } = so_far;
    functions.push(f)?;
    Ok(Resolved { types, functions })
}

/// An item more.
fn with_item(
    alloc: Global,
    tables: &Tables,
    so_far: Resolved,
    item: &Item,
) -> Result<Resolved, Stop>
    ensures { Gives (spec.read_item tables.now so_far item.now) result }
{
    match item {
        Item::Function(f) => {
            let f = resolve_function(alloc, tables, f)?;
            Ok(with_function(so_far, f)?)
        }
        Item::Struct(s) => {
            let ty = resolve_struct(alloc, tables, s)?;
            Ok(with_type(so_far, ty)?)
        }
        Item::Enum(e) => {
            let ty = resolve_enum(alloc, tables, e)?;
            Ok(with_type(so_far, ty)?)
        }
        Item::UseMem => Ok(so_far),
    }
}

/// The items in source order.
pub(crate) fn resolve_items(
    alloc: Global,
    tables: &Tables,
    items: &[Item],
) -> Result<Resolved, Stop>
    ensures { Gives (spec.read_items tables.now items.now spec.no_items) result }
{
    let mut so_far = Resolved {
        types: List::new(alloc),
        functions: List::new(alloc),
    };
    for i in 0..items.len() {
        let next = with_item(alloc, tables, so_far, &items[i])?;
        so_far = next;
    }
    Ok(so_far)
}
