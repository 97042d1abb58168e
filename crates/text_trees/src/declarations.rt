//! Declarations of types.

ghost use Rattle.std.specs.Prelude.{◌≡◌, [], ◌++◌, IfOk, codes};
ghost use Rattle.std.specs.Fmt.{decimal};
ghost use Rattle.text_trees.specs.Declarations as spec;
ghost use Rattle.text_trees.specs.Told.{Gives};

use crate::SettleFault;
use crate::new_names::{new_member, new_parameter, new_type, variant_end};
use crate::types::settle_type;
use aen_base::{List, Name, NoMem};
use pure_ast::{PTy, PType};
use raw_ast::{Declaration, Members, RawType, Spelling, Variant};
use std::alloc::Global;
use text_names::{Names, Tables};

/// The fields of a variant, by their names.
type NamedFields = List<(Name, PTy)>;

/// The declared types, in order.
pub(crate) fn settle_declarations(
    alloc: Global,
    tables: &Tables,
    raw: &[Declaration],
) -> Result<List<PType>, SettleFault>
    ensures { Gives (spec.declarations_told tables.now [] [] raw.now) result }
{
    let mut types = Names::new(alloc);
    let mut parameters = Names::new(alloc);
    let mut done = List::new(alloc);
    for i in 0..raw.len() {
        let declaration = &raw[i];
        new_type(&types, &parameters, &declaration.name)?;
        types = types.with(alloc, &declaration.name.text)?;
        let ty = settle_body(alloc, tables, &types, declaration)?;
        done.push(ty)?;
        parameters = parameters.with_all(alloc, declaration.parameters.as_slice())?;
    }
    Ok(done)
}

/// What a declaration declares, where its name is among these types.
fn settle_body(
    alloc: Global,
    tables: &Tables,
    types: &Names,
    raw: &Declaration,
) -> Result<PType, SettleFault>
    ensures { Gives (spec.body_told tables.now types.now raw.now) result }
{
    let parameters = settle_parameters(alloc, types, raw.parameters.as_slice())?;
    let variants = settle_members(alloc, tables, &raw.name.text, &parameters, &raw.members)?;
    let name = raw.name.text.try_clone(alloc)?;
    Ok(PType {
        name,
        is_struct: is_structure(&raw.members),
        params: parameters.into_list(),
        variants,
    })
}

/// Type parameters, which differ from these types and from each other.
pub(crate) fn settle_parameters(
    alloc: Global,
    types: &Names,
    raw: &[Spelling],
) -> Result<Names, SettleFault>
    ensures { Gives (spec.parameters_told types.now [] raw.now) result }
{
    let mut before = Names::new(alloc);
    for i in 0..raw.len() {
        new_parameter(types, &before, &raw[i])?;
        before = before.with(alloc, &raw[i].text)?;
    }
    Ok(before)
}

/// Whether these are the fields of a structure.
fn is_structure(raw: &Members) -> bool
    ensures { result ≡ spec.is_structure raw.now }
{
    match raw {
        Members::Variants(_) => false,
        Members::Fields(_) => true,
    }
}

/// The variants of a type of this name; a structure's one is `mk`.
fn settle_members(
    alloc: Global,
    tables: &Tables,
    ty: &Name,
    parameters: &Names,
    raw: &Members,
) -> Result<List<(Name, NamedFields)>, SettleFault>
    ensures { Gives (spec.members_told tables.now ty.now parameters.now raw.now) result }
{
    match raw {
        Members::Variants(variants) => {
            settle_variants(alloc, tables, ty, parameters, variants.as_slice())
        }
        Members::Fields(fields) => {
            let fields = settle_fields(alloc, tables, parameters, fields.as_slice())?;
            let name = Name::from_str(alloc, "mk")?;
            let mut variants = List::new(alloc);
            variants.push((name, fields))?;
            Ok(variants)
        }
    }
}

/// The variants of a type of this name.
fn settle_variants(
    alloc: Global,
    tables: &Tables,
    ty: &Name,
    parameters: &Names,
    raw: &[Variant],
) -> Result<List<(Name, NamedFields)>, SettleFault>
    ensures { Gives (spec.variants_told tables.now ty.now parameters.now [] raw.now) result }
{
    let mut before = Names::new(alloc);
    let mut done = List::new(alloc);
    for i in 0..raw.len() {
        new_member(&before, &raw[i].name)?;
        let variant = settle_variant(alloc, tables, ty, parameters, &raw[i])?;
        done.push(variant)?;
        before = before.with(alloc, &raw[i].name.text)?;
    }
    Ok(done)
}

/// A variant of a type of this name.
fn settle_variant(
    alloc: Global,
    tables: &Tables,
    ty: &Name,
    parameters: &Names,
    raw: &Variant,
) -> Result<(Name, NamedFields), SettleFault>
    ensures { Gives (spec.variant_told tables.now ty.now parameters.now raw.now) result }
{
    let fields = settle_numbered(alloc, tables, parameters, raw.fields.as_slice())?;
    variant_end(ty, parameters, &raw.end, raw.parameters.as_slice())?;
    let name = raw.name.text.try_clone(alloc)?;
    Ok((name, fields))
}

/// The fields of a structure.
fn settle_fields(
    alloc: Global,
    tables: &Tables,
    parameters: &Names,
    raw: &[(Spelling, RawType)],
) -> Result<NamedFields, SettleFault>
    ensures { Gives (spec.fields_told tables.now parameters.now [] raw.now) result }
{
    let mut before = Names::new(alloc);
    let mut done = List::new(alloc);
    for i in 0..raw.len() {
        new_member(&before, &raw[i].0)?;
        let ty = settle_type(alloc, tables, parameters, &raw[i].1)?;
        let name = raw[i].0.text.try_clone(alloc)?;
        done.push((name, ty))?;
        before = before.with(alloc, &raw[i].0.text)?;
    }
    Ok(done)
}

/// Fields without names: they are `f0`, `f1` and so on.
fn settle_numbered(
    alloc: Global,
    tables: &Tables,
    parameters: &Names,
    raw: &[RawType],
) -> Result<NamedFields, SettleFault>
    ensures { Gives (spec.numbered_told tables.now parameters.now 0 raw.now) result }
{
    let mut done = List::new(alloc);
    for i in 0..raw.len() {
        let ty = settle_type(alloc, tables, parameters, &raw[i])?;
        let name = field_name(alloc, i)?;
        done.push((name, ty))?;
    }
    Ok(done)
}

/// The name of the field in this place.
fn field_name(alloc: Global, place: usize) -> Result<Name, NoMem>
    ensures { IfOk result (λ n. n ≡ codes "f" ++ decimal place) }
{
    Ok(Name::new(format!(in alloc; "f{place}")?))
}
