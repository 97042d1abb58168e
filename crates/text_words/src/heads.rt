//! What definitions declare.

ghost use Rattle.std.specs.Prelude.{◌≡◌, map, IfOk};
ghost use Rattle.raw_meaning.specs.Heads as spec;

use aen_base::{List, Name, NoMem};
use pure_ast::{Def, Defs, PTy, PType};
use raw_meaning::{DefinitionHead, Outline, TypeHead, VariantHead};
use std::alloc::Global;

/// The outline of definitions. The only error is want of memory.
pub(crate) fn declared_by(alloc: Global, defs: &Defs) -> Result<Outline, NoMem>
    ensures { IfOk result (λ o. o ≡ spec.declared_by defs.now) }
{
    Ok(Outline {
        types: type_heads(alloc, defs.types.as_slice())?,
        functions: copy_names(alloc, defs.names.as_slice())?,
        definitions: definition_heads(alloc, defs.defs.as_slice())?,
    })
}

fn type_heads(alloc: Global, types: &[PType]) -> Result<List<TypeHead>, NoMem>
    ensures { IfOk result (λ all. all ≡ map spec.head_of_type types.now) }
{
    let mut heads = List::new(alloc);
    for ty in types {
        heads.push(type_head(alloc, ty)?)?;
    }
    Ok(heads)
}

fn type_head(alloc: Global, ty: &PType) -> Result<TypeHead, NoMem>
    ensures { IfOk result (λ h. h ≡ spec.head_of_type ty.now) }
{
    Ok(TypeHead {
        name: ty.name.try_clone(alloc)?,
        parameters: ty.params.len(),
        variants: variant_heads(alloc, ty.variants.as_slice())?,
    })
}

fn variant_heads(
    alloc: Global,
    variants: &[(Name, List<(Name, PTy)>)],
) -> Result<List<VariantHead>, NoMem>
    ensures { IfOk result (λ all. all ≡ map spec.head_of_variant variants.now) }
{
    let mut heads = List::new(alloc);
    for variant in variants {
        let name = variant.0.try_clone(alloc)?;
        heads.push(VariantHead {
            name,
            fields: variant.1.len(),
        })?;
    }
    Ok(heads)
}

fn copy_names(alloc: Global, names: &[Name]) -> Result<List<Name>, NoMem>
    ensures { IfOk result (λ all. all ≡ names.now) }
{
    let mut all = List::new(alloc);
    for name in names {
        all.push(name.try_clone(alloc)?)?;
    }
    Ok(all)
}

fn definition_heads(alloc: Global, definitions: &[Def]) -> Result<List<DefinitionHead>, NoMem>
    ensures { IfOk result (λ all. all ≡ map spec.head_of_definition definitions.now) }
{
    let mut heads = List::new(alloc);
    for definition in definitions {
        heads.push(DefinitionHead {
            kind: definition.kind,
            parameters: definition.params.len(),
        })?;
    }
    Ok(heads)
}
