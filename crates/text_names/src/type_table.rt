//! Types, whose variants are found by name.

ghost use Rattle.std.specs.Prelude.{◌≡◌, IfOk};
ghost use Rattle.raw_meaning.specs.Lookups as lookups;

use crate::by_name::ByName;
use crate::named::Named;
use aen_base::{List, Name, NoMem, TypeId};
use pure_ast::CtorId;
use raw_meaning::{TypeHead, VariantHead};
use std::alloc::Global;
use std::marker::Model;

/// A type whose variants are found by their names: contracts see its head.
#[derive(Drop)]
pub(crate) struct TypeTable {
    name: Name,
    pub(crate) parameters: usize,
    variants: ByName<VariantHead>,
}

impl Model for TypeTable {
    ghost use Rattle.raw_meaning.specs.declared.outline.TypeHead.{TypeHead};
    ghost use Rattle.raw_meaning.specs.contracts.outline.TypeHead as head;

    ghost Value = { TypeHead };

    ghost coded = { head.the_row.coded };

    ghost view = { λ s. record { name = s.name; parameters = s.parameters; variants = s.variants } };
}

impl TypeTable {
    /// The type's variants with their table. The only error is want of memory.
    pub(crate) fn new(alloc: Global, head: TypeHead) -> Result<TypeTable, NoMem>
        ensures { IfOk result (λ t. t ≡ head) }
    {
        let TypeHead {
            name,
            parameters,
            variants,
        } = head;
        let variants = ByName::new(alloc, variants)?;
        Ok(TypeTable {
            name,
            parameters,
            variants,
        })
    }

    /// The first variant of this name of the type with this number, with its number of fields.
    pub(crate) fn variant_of(&self, ty: u32, name: &Name) -> Option<(CtorId, usize)>
        ensures { result ≡ lookups.variant_of ty self.now.variants name.now }
    {
        let (place, variant) = self.variants.find(name)?;
        Some((CtorId::Of(TypeId(ty), place), variant.fields))
    }
}

impl Named for TypeTable {
    ghost name_of = { λ t. t.name };

    fn name(&self) -> &Name {
        &self.name
    }
}

/// Types with the tables of their variants. The only error is want of memory.
pub(crate) fn type_tables(alloc: Global, heads: List<TypeHead>) -> Result<List<TypeTable>, NoMem>
    ensures { IfOk result (λ ts. ts ≡ heads) }
{
    let mut heads = heads;
    let mut types = Vec::new(alloc);
    while let Some(head) = heads.pop() {
        types.push(TypeTable::new(alloc, head)?)?;
    }
    types.reverse();
    Ok(List::from_vec(types))
}
