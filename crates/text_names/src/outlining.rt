//! What a text as it is spelled declares.

ghost use Rattle.std.specs.Prelude.{◌≡◌, [], ◌∷◌, List, ◌++◌, map, codes, IfOk};
ghost use Rattle.raw_meaning.specs.Outlines as outlines;
ghost use Rattle.raw_meaning.specs.declared.outline.DefinitionHead.{DefinitionHead};

use crate::definition_names::kind_by;
use crate::names::Names;
use aen_base::{List, Name, NoMem};
use pure_ast::DefKind;
use raw_ast::{Declaration, Definition, DefinitionName, Members, RawText, Variant};
use raw_meaning::{DefinitionHead, Outline, TypeHead, VariantHead};
use std::alloc::Global;

/// What a text declares. The only error is want of memory.
pub fn outline_of(alloc: Global, text: &RawText) -> Result<Outline, NoMem>
    ensures { IfOk result (λ o. o ≡ outlines.outline_of text.now) }
{
    let types = type_heads(alloc, text.types.as_slice())?;
    let functions = functions(alloc, text.definitions.as_slice())?;
    let definitions = definition_heads(alloc, &functions, text.definitions.as_slice())?;
    Ok(Outline {
        types,
        functions: functions.into_list(),
        definitions,
    })
}

fn type_heads(alloc: Global, types: &[Declaration]) -> Result<List<TypeHead>, NoMem>
    ensures { IfOk result (λ all. all ≡ map outlines.type_head types.now) }
{
    let mut heads = List::new(alloc);
    for ty in types {
        heads.push(type_head(alloc, ty)?)?;
    }
    Ok(heads)
}

fn type_head(alloc: Global, ty: &Declaration) -> Result<TypeHead, NoMem>
    ensures { IfOk result (λ h. h ≡ outlines.type_head ty.now) }
{
    Ok(TypeHead {
        name: ty.name.text.try_clone(alloc)?,
        parameters: ty.parameters.len(),
        variants: members_heads(alloc, &ty.members)?,
    })
}

/// The variants of a type; a structure has one.
fn members_heads(alloc: Global, members: &Members) -> Result<List<VariantHead>, NoMem>
    ensures { IfOk result (λ all. all ≡ outlines.members_heads members.now) }
{
    match members {
        Members::Variants(variants) => variant_heads(alloc, variants.as_slice()),
        Members::Fields(fields) => structure_head(alloc, fields.len()),
    }
}

fn variant_heads(alloc: Global, variants: &[Variant]) -> Result<List<VariantHead>, NoMem>
    ensures { IfOk result (λ all. all ≡ map outlines.variant_head variants.now) }
{
    let mut heads = List::new(alloc);
    for variant in variants {
        let name = variant.name.text.try_clone(alloc)?;
        heads.push(VariantHead {
            name,
            fields: variant.fields.len(),
        })?;
    }
    Ok(heads)
}

/// The one variant of a structure with so many fields.
fn structure_head(alloc: Global, fields: usize) -> Result<List<VariantHead>, NoMem>
    ensures { IfOk result (λ all. all ≡ record { name = codes "mk"; fields = fields } ∷ []) }
{
    let name = Name::from_str(alloc, "mk")?;
    let mut heads = List::new(alloc);
    heads.push(VariantHead { name, fields })?;
    Ok(heads)
}

/// The functions that definitions are named after, in the order of the first of each.
fn functions(alloc: Global, definitions: &[Definition]) -> Result<Names, NoMem>
    ensures { IfOk result (λ fs. fs ≡ outlines.functions_after [] definitions.now) }
{
    let mut functions = Names::new(alloc);
    for definition in definitions {
        functions = with_function(alloc, functions, &definition.name.function.text)?;
    }
    Ok(functions)
}

/// With a function, if it isn't there yet.
fn with_function(alloc: Global, functions: Names, name: &Name) -> Result<Names, NoMem>
    ensures { IfOk result (λ fs. fs ≡ outlines.with_function functions name.now) }
{
    if functions.contains(name) {
        Ok(functions)
    } else {
        functions.with(alloc, name)
    }
}

/// The heads of definitions, but for those whose name has a number that is none.
fn definition_heads(
    alloc: Global,
    functions: &Names,
    definitions: &[Definition],
) -> Result<List<DefinitionHead>, NoMem>
    ensures { IfOk result (λ all. all ≡ outlines.definition_heads functions.now definitions.now) }
{
    let mut heads = List::new(alloc);
    for definition in definitions {
        let kind = kind_of(functions, &definition.name);
        heads = with_head(heads, kind, definition.parameters.len())?;
    }
    Ok(heads)
}

/// What a definition of this name is for, where functions are numbered so.
fn kind_of(functions: &Names, name: &DefinitionName) -> Option<DefKind>
    ensures { result ≡ outlines.kind_of functions.now name.now }
{
    kind_by(functions.place_of(&name.function.text), name)
}

/// With the head of a definition of this kind, if there is one.
fn with_head(
    heads: List<DefinitionHead>,
    kind: Option<DefKind>,
    parameters: usize,
) -> Result<List<DefinitionHead>, NoMem>
    ensures { IfOk result (λ all. (rest : List DefinitionHead) → all ++ rest ≡ heads ++ outlines.with_head kind parameters rest) }
{
    let mut heads = heads;
    match kind {
        None => Ok(heads),
        Some(kind) => {
            heads.push(DefinitionHead { kind, parameters })?;
            Ok(heads)
        }
    }
}
