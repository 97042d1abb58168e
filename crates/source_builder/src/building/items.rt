//! What builds items by their productions. Written by tools/source_build.py.

ghost use Rattle.std.specs.Prelude.{◌≡◌, reverse, IfOk};
ghost use Rattle.source_grammar.specs.declared.part.Part.TheVariants as N;
ghost use Rattle.source_values.specs.Stacked.{CanBuild, IsBuilt};

use aen_base::NoMem;
use source_items::fields::{
    field_0, field_1, struct_body_0, struct_body_1, struct_body_2, tuple_field_0, tuple_field_1,
    variant_0, variant_body_0, variant_body_1,
};
use source_items::generics::{
    generics_0, generics_1, lifetimes_0, lifetimes_1, lifetimes_2, type_parameters_0,
    type_parameters_1,
};
use source_items::items::{
    after_hash_0, after_hash_1, attribute_0, attributed_0, attributed_1, attributed_2,
    declaration_0, declaration_1, declaration_2, item_2, items_1, parameter_0, parameter_1,
    program_0, program_1, program_2, result_0, result_1,
};
use source_values::{Stack, Value};
use std::alloc::Global;

pub(crate) fn build_program(alloc: Global, index: usize, values: &mut Stack) -> Result<Value, NoMem>
    requires { CanBuild N.Program index (reverse values.old) }
    ensures { IfOk result (λ it. IsBuilt N.Program index (reverse values.old) it (reverse values.new)) }
{
    match index {
        0 => Ok(program_0(alloc, values)),
        1 => Ok(program_1(values)),
        2 => program_2(values),
        _ => unreachable!(),
    }
}

pub(crate) fn build_after_hash(index: usize, values: &mut Stack) -> Result<Value, NoMem>
    requires { CanBuild N.AfterHash index (reverse values.old) }
    ensures { IfOk result (λ it. IsBuilt N.AfterHash index (reverse values.old) it (reverse values.new)) }
{
    match index {
        0 => Ok(after_hash_0(values)),
        1 => after_hash_1(values),
        _ => unreachable!(),
    }
}

pub(crate) fn build_items(alloc: Global, index: usize, values: &mut Stack) -> Result<Value, NoMem>
    requires { CanBuild N.Items index (reverse values.old) }
    ensures { IfOk result (λ it. IsBuilt N.Items index (reverse values.old) it (reverse values.new)) }
{
    match index {
        0 => Ok(program_0(alloc, values)),
        1 => items_1(values),
        2 => program_2(values),
        _ => unreachable!(),
    }
}

pub(crate) fn build_attribute(index: usize, values: &mut Stack) -> Result<Value, NoMem>
    requires { CanBuild N.Attribute index (reverse values.old) }
    ensures { IfOk result (λ it. IsBuilt N.Attribute index (reverse values.old) it (reverse values.new)) }
{
    match index {
        0 => Ok(attribute_0(values)),
        _ => unreachable!(),
    }
}

pub(crate) fn build_attributed(
    alloc: Global,
    index: usize,
    values: &mut Stack,
) -> Result<Value, NoMem>
    requires { CanBuild N.Attributed index (reverse values.old) }
    ensures { IfOk result (λ it. IsBuilt N.Attributed index (reverse values.old) it (reverse values.new)) }
{
    match index {
        0 => attributed_0(alloc, values),
        1 => attributed_1(alloc, values),
        2 => attributed_2(alloc, values),
        _ => unreachable!(),
    }
}

pub(crate) fn build_item(alloc: Global, index: usize, values: &mut Stack) -> Result<Value, NoMem>
    requires { CanBuild N.Item index (reverse values.old) }
    ensures { IfOk result (λ it. IsBuilt N.Item index (reverse values.old) it (reverse values.new)) }
{
    match index {
        0 => attributed_1(alloc, values),
        1 => attributed_2(alloc, values),
        2 => item_2(alloc, values),
        _ => unreachable!(),
    }
}

pub(crate) fn build_declaration(
    alloc: Global,
    index: usize,
    values: &mut Stack,
) -> Result<Value, NoMem>
    requires { CanBuild N.Declaration index (reverse values.old) }
    ensures { IfOk result (λ it. IsBuilt N.Declaration index (reverse values.old) it (reverse values.new)) }
{
    match index {
        0 => declaration_0(alloc, values),
        1 => declaration_1(alloc, values),
        2 => declaration_2(alloc, values),
        _ => unreachable!(),
    }
}

pub(crate) fn build_generics(
    alloc: Global,
    index: usize,
    values: &mut Stack,
) -> Result<Value, NoMem>
    requires { CanBuild N.Generics index (reverse values.old) }
    ensures { IfOk result (λ it. IsBuilt N.Generics index (reverse values.old) it (reverse values.new)) }
{
    match index {
        0 => Ok(generics_0(alloc, values)),
        1 => Ok(generics_1(values)),
        _ => unreachable!(),
    }
}

pub(crate) fn build_lifetimes(
    alloc: Global,
    index: usize,
    values: &mut Stack,
) -> Result<Value, NoMem>
    requires { CanBuild N.Lifetimes index (reverse values.old) }
    ensures { IfOk result (λ it. IsBuilt N.Lifetimes index (reverse values.old) it (reverse values.new)) }
{
    match index {
        0 => Ok(lifetimes_0(alloc, values)),
        1 => lifetimes_1(alloc, values),
        2 => lifetimes_2(alloc, values),
        _ => unreachable!(),
    }
}

pub(crate) fn build_more_lifetimes(
    alloc: Global,
    index: usize,
    values: &mut Stack,
) -> Result<Value, NoMem>
    requires { CanBuild N.MoreLifetimes index (reverse values.old) }
    ensures { IfOk result (λ it. IsBuilt N.MoreLifetimes index (reverse values.old) it (reverse values.new)) }
{
    match index {
        0 => Ok(lifetimes_0(alloc, values)),
        1 => Ok(generics_1(values)),
        _ => unreachable!(),
    }
}

pub(crate) fn build_type_parameters(
    alloc: Global,
    index: usize,
    values: &mut Stack,
) -> Result<Value, NoMem>
    requires { CanBuild N.TypeParameters index (reverse values.old) }
    ensures { IfOk result (λ it. IsBuilt N.TypeParameters index (reverse values.old) it (reverse values.new)) }
{
    match index {
        0 => Ok(type_parameters_0(alloc, values)),
        1 => Ok(type_parameters_1(values)),
        _ => unreachable!(),
    }
}

pub(crate) fn build_parameter(
    alloc: Global,
    index: usize,
    values: &mut Stack,
) -> Result<Value, NoMem>
    requires { CanBuild N.Parameter index (reverse values.old) }
    ensures { IfOk result (λ it. IsBuilt N.Parameter index (reverse values.old) it (reverse values.new)) }
{
    match index {
        0 => parameter_0(alloc, values),
        1 => parameter_1(alloc, values),
        _ => unreachable!(),
    }
}

pub(crate) fn build_result(index: usize, values: &mut Stack) -> Result<Value, NoMem>
    requires { CanBuild N.Result index (reverse values.old) }
    ensures { IfOk result (λ it. IsBuilt N.Result index (reverse values.old) it (reverse values.new)) }
{
    match index {
        0 => Ok(result_0(values)),
        1 => Ok(result_1(values)),
        _ => unreachable!(),
    }
}

pub(crate) fn build_struct_body(
    alloc: Global,
    index: usize,
    values: &mut Stack,
) -> Result<Value, NoMem>
    requires { CanBuild N.StructBody index (reverse values.old) }
    ensures { IfOk result (λ it. IsBuilt N.StructBody index (reverse values.old) it (reverse values.new)) }
{
    match index {
        0 => Ok(struct_body_0(alloc, values)),
        1 => Ok(struct_body_1(values)),
        2 => Ok(struct_body_2(alloc, values)),
        _ => unreachable!(),
    }
}

pub(crate) fn build_field(alloc: Global, index: usize, values: &mut Stack) -> Result<Value, NoMem>
    requires { CanBuild N.Field index (reverse values.old) }
    ensures { IfOk result (λ it. IsBuilt N.Field index (reverse values.old) it (reverse values.new)) }
{
    match index {
        0 => field_0(alloc, values),
        1 => field_1(alloc, values),
        _ => unreachable!(),
    }
}

pub(crate) fn build_tuple_field(index: usize, values: &mut Stack) -> Result<Value, NoMem>
    requires { CanBuild N.TupleField index (reverse values.old) }
    ensures { IfOk result (λ it. IsBuilt N.TupleField index (reverse values.old) it (reverse values.new)) }
{
    match index {
        0 => Ok(tuple_field_0(values)),
        1 => Ok(tuple_field_1(values)),
        _ => unreachable!(),
    }
}

pub(crate) fn build_variant(alloc: Global, index: usize, values: &mut Stack) -> Result<Value, NoMem>
    requires { CanBuild N.Variant index (reverse values.old) }
    ensures { IfOk result (λ it. IsBuilt N.Variant index (reverse values.old) it (reverse values.new)) }
{
    match index {
        0 => variant_0(alloc, values),
        _ => unreachable!(),
    }
}

pub(crate) fn build_variant_body(
    alloc: Global,
    index: usize,
    values: &mut Stack,
) -> Result<Value, NoMem>
    requires { CanBuild N.VariantBody index (reverse values.old) }
    ensures { IfOk result (λ it. IsBuilt N.VariantBody index (reverse values.old) it (reverse values.new)) }
{
    match index {
        0 => Ok(variant_body_0(alloc, values)),
        1 => Ok(variant_body_1(values)),
        _ => unreachable!(),
    }
}
