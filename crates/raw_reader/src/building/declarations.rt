//! What builds declarations by their productions. Written by tools/text_ways.py.

ghost use Rattle.std.specs.Prelude.{◌≡◌, reverse, IfOk};
ghost use Rattle.text_table.specs.declared.part.Part.TheVariants as N;
ghost use Rattle.raw_ways.specs.Built.{CanBuild, IsBuilt};

use aen_base::NoMem;
use raw_productions::declarations::{
    declaration_0, declaration_1, fields_0, fields_1, names_1, text_0, type_parameters_0,
    type_parameters_1, types_0, types_1, variant_end_0, variant_end_1, variant_end_2,
    variant_type_0, variant_type_1, variants_0, variants_1,
};
use raw_values::{Stack, Value};
use std::alloc::Global;

pub(crate) fn build_text(alloc: Global, index: usize, values: &mut Stack) -> Result<Value, NoMem>
    requires { CanBuild N.Text index (reverse values.old) }
    ensures { IfOk result (λ it. IsBuilt N.Text index (reverse values.old) it (reverse values.new)) }
{
    match index {
        0 => text_0(alloc, values),
        _ => unreachable!(),
    }
}

pub(crate) fn build_types(alloc: Global, index: usize, values: &mut Stack) -> Result<Value, NoMem>
    requires { CanBuild N.Types index (reverse values.old) }
    ensures { IfOk result (λ it. IsBuilt N.Types index (reverse values.old) it (reverse values.new)) }
{
    match index {
        0 => Ok(types_0(alloc, values)),
        1 => types_1(values),
        _ => unreachable!(),
    }
}

pub(crate) fn build_declaration(
    alloc: Global,
    index: usize,
    values: &mut Stack,
) -> Result<Value, NoMem>
    requires { CanBuild N.Declaration index (reverse values.old) }
    ensures { IfOk result (λ it. IsBuilt N.Declaration index (reverse values.old) it (reverse values.new)) }
{
    match index {
        0 => declaration_0(alloc, values),
        1 => declaration_1(alloc, values),
        _ => unreachable!(),
    }
}

pub(crate) fn build_type_parameters(
    alloc: Global,
    index: usize,
    values: &mut Stack,
) -> Result<Value, NoMem>
    requires { CanBuild N.TypeParameters index (reverse values.old) }
    ensures { IfOk result (λ it. IsBuilt N.TypeParameters index (reverse values.old) it (reverse values.new)) }
{
    match index {
        0 => Ok(type_parameters_0(alloc, values)),
        1 => type_parameters_1(values),
        _ => unreachable!(),
    }
}

pub(crate) fn build_variants(
    alloc: Global,
    index: usize,
    values: &mut Stack,
) -> Result<Value, NoMem>
    requires { CanBuild N.Variants index (reverse values.old) }
    ensures { IfOk result (λ it. IsBuilt N.Variants index (reverse values.old) it (reverse values.new)) }
{
    match index {
        0 => Ok(variants_0(alloc, values)),
        1 => variants_1(values),
        _ => unreachable!(),
    }
}

pub(crate) fn build_variant_type(
    alloc: Global,
    index: usize,
    values: &mut Stack,
) -> Result<Value, NoMem>
    requires { CanBuild N.VariantType index (reverse values.old) }
    ensures { IfOk result (λ it. IsBuilt N.VariantType index (reverse values.old) it (reverse values.new)) }
{
    match index {
        0 => variant_type_0(alloc, values),
        1 => variant_type_1(alloc, values),
        _ => unreachable!(),
    }
}

pub(crate) fn build_variant_end(
    alloc: Global,
    index: usize,
    values: &mut Stack,
) -> Result<Value, NoMem>
    requires { CanBuild N.VariantEnd index (reverse values.old) }
    ensures { IfOk result (λ it. IsBuilt N.VariantEnd index (reverse values.old) it (reverse values.new)) }
{
    match index {
        0 => variant_end_0(alloc, values),
        1 => variant_end_1(alloc, values),
        2 => variant_end_2(alloc, values),
        _ => unreachable!(),
    }
}

pub(crate) fn build_names(alloc: Global, index: usize, values: &mut Stack) -> Result<Value, NoMem>
    requires { CanBuild N.Names index (reverse values.old) }
    ensures { IfOk result (λ it. IsBuilt N.Names index (reverse values.old) it (reverse values.new)) }
{
    match index {
        0 => Ok(type_parameters_0(alloc, values)),
        1 => names_1(values),
        _ => unreachable!(),
    }
}

pub(crate) fn build_fields(alloc: Global, index: usize, values: &mut Stack) -> Result<Value, NoMem>
    requires { CanBuild N.Fields index (reverse values.old) }
    ensures { IfOk result (λ it. IsBuilt N.Fields index (reverse values.old) it (reverse values.new)) }
{
    match index {
        0 => Ok(fields_0(alloc, values)),
        1 => fields_1(values),
        _ => unreachable!(),
    }
}
