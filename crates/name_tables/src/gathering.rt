//! What a program declares, gathered item by item.

ghost use Rattle.std.specs.Prelude.{◌≡◌, IfOk};
ghost use Rattle.name_tables.specs.Tables as spec;

use crate::by_name::ByName;
use crate::lookups::number;
use crate::tables::{Meaning, Tables, TypeNames, ValueNames};
use aen_base::{List, Name, NoMem, TypeId};
use rust_ast::Ident;
use rust_ast::program::{Enum, Fields, Function, Item, Struct, Variant};
use std::alloc::Global;

/// What items declare.
#[derive(Drop)]
pub struct Gathered {
    types: List<TypeNames>,
    values: List<ValueNames>,
    mem: bool,
    functions: u32,
}

/// The names of identifiers.
///
/// # Errors
///
/// `NoMem` for want of memory alone.
pub fn names_of(alloc: Global, idents: &[Ident]) -> Result<List<Name>, NoMem>
    ensures { IfOk result (λ ns. ns ≡ spec.names_of idents.now) }
{
    let mut names = List::new(alloc);
    for i in 0..idents.len() {
        names.push(idents[i].name.try_clone(alloc)?)?;
    }
    Ok(names)
}

/// The names of variants.
fn variant_names(alloc: Global, variants: &[Variant]) -> Result<List<Name>, NoMem>
    ensures { IfOk result (λ ns. ns ≡ spec.variant_names variants.now) }
{
    let mut names = List::new(alloc);
    for i in 0..variants.len() {
        names.push(variants[i].name.name.try_clone(alloc)?)?;
    }
    Ok(names)
}

/// What a struct's name means.
fn struct_meaning(id: TypeId, fields: &Fields) -> Meaning
    ensures { result ≡ spec.struct_means id fields.now }
{
    match fields {
        Fields::Named(fields) => {
            if fields.is_empty() {
                Meaning::Empty(id)
            } else {
                Meaning::Named(id)
            }
        }
        Fields::Placed(fields) => {
            if fields.is_empty() {
                Meaning::Empty(id)
            } else {
                Meaning::Placed(id)
            }
        }
    }
}

/// A function more.
fn with_function(alloc: Global, so_far: Gathered, f: &Function) -> Result<Gathered, NoMem>
    ensures { IfOk result (λ r. r ≡ spec.with_function so_far f.now) }
{
    let Gathered {
        types,
        mut values,
        mem,
        functions,
    } = so_far;
    values.push(ValueNames {
        name: f.name.name.try_clone(alloc)?,
        meaning: Meaning::Function(functions),
    })?;
    match functions.checked_add(1) {
        Some(functions) => Ok(Gathered {
            types,
            values,
            mem,
            functions,
        }),
        None => Err(NoMem),
    }
}

/// A struct more.
fn with_struct(alloc: Global, so_far: Gathered, s: &Struct) -> Result<Gathered, NoMem>
    ensures { IfOk result (λ r. r ≡ spec.with_struct so_far s.now) }
{
    let Gathered {
        mut types,
        mut values,
        mem,
        functions,
    } = so_far;
    let id = TypeId(number(types.len())?);
    values.push(ValueNames {
        name: s.name.name.try_clone(alloc)?,
        meaning: struct_meaning(id, &s.fields),
    })?;
    types.push(TypeNames {
        name: s.name.name.try_clone(alloc)?,
        is_struct: true,
        variants: ByName::new(alloc, List::new(alloc))?,
    })?;
    Ok(Gathered {
        types,
        values,
        mem,
        functions,
    })
}

/// An enum more.
fn with_enum(alloc: Global, so_far: Gathered, e: &Enum) -> Result<Gathered, NoMem>
    ensures { IfOk result (λ r. r ≡ spec.with_enum so_far e.now) }
{
    let Gathered {
        mut types,
        values,
        mem,
        functions,
    } = so_far;
    types.push(TypeNames {
        name: e.name.name.try_clone(alloc)?,
        is_struct: false,
        variants: ByName::new(alloc, variant_names(alloc, e.variants.as_slice())?)?,
    })?;
    Ok(Gathered {
        types,
        values,
        mem,
        functions,
    })
}

/// `use std::mem;` more.
fn with_mem(so_far: Gathered) -> Gathered
    ensures { result ≡ spec.with_mem so_far }
{
    let Gathered {
        types,
        values,
        mem: _,
        functions,
    } = so_far;
    Gathered {
        types,
        values,
        mem: true,
        functions,
    }
}

/// An item more.
fn with_item(alloc: Global, so_far: Gathered, item: &Item) -> Result<Gathered, NoMem>
    ensures { IfOk result (λ r. r ≡ spec.with_item so_far item.now) }
{
    match item {
        Item::Function(f) => Ok(with_function(alloc, so_far, f)?),
        Item::Struct(s) => Ok(with_struct(alloc, so_far, s)?),
        Item::Enum(e) => Ok(with_enum(alloc, so_far, e)?),
        Item::UseMem => Ok(with_mem(so_far)),
    }
}

/// What items declare.
fn gather(alloc: Global, items: &[Item]) -> Result<Gathered, NoMem>
    ensures { IfOk result (λ r. r ≡ spec.gather items.now spec.nothing) }
{
    let mut so_far = Gathered {
        types: List::new(alloc),
        values: List::new(alloc),
        mem: false,
        functions: 0,
    };
    for i in 0..items.len() {
        let next = with_item(alloc, so_far, &items[i])?;
        so_far = next;
    }
    Ok(so_far)
}

/// What a program declares, as uses see it.
///
/// # Errors
///
/// `NoMem` for want of memory, or where there are 2^32 functions, or as many structs and enums before a
/// struct.
pub fn tables_of(alloc: Global, items: &[Item]) -> Result<Tables, NoMem>
    ensures { IfOk result (λ t. t ≡ spec.tables_of items.now) }
{
    let Gathered {
        types,
        values,
        mem,
        functions: _,
    } = gather(alloc, items)?;
    Ok(Tables {
        types: ByName::new(alloc, types)?,
        values: ByName::new(alloc, values)?,
        mem,
    })
}
