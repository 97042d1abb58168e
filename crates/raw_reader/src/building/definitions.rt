//! What builds definitions by their productions. Written by tools/text_ways.py.

ghost use Rattle.std.specs.Prelude.{◌≡◌, reverse, IfOk};
ghost use Rattle.text_table.specs.declared.part.Part.TheVariants as N;
ghost use Rattle.raw_ways.specs.Built.{CanBuild, IsBuilt};

use aen_base::NoMem;
use raw_productions::declarations::{fields_0, fields_1, type_parameters_0, type_parameters_1};
use raw_productions::definitions::{
    back_end_0, back_end_1, definition_0, definition_name_0, definitions_0, definitions_1,
    fuel_match_0, fuel_parameter_0, name_end_0, name_end_1, name_part_0, name_part_1,
};
use raw_values::{Stack, Value};
use std::alloc::Global;

pub(crate) fn build_definitions(
    alloc: Global,
    index: usize,
    values: &mut Stack,
) -> Result<Value, NoMem>
    requires { CanBuild N.Definitions index (reverse values.old) }
    ensures { IfOk result (λ it. IsBuilt N.Definitions index (reverse values.old) it (reverse values.new)) }
{
    match index {
        0 => Ok(definitions_0(alloc, values)),
        1 => definitions_1(values),
        _ => unreachable!(),
    }
}

pub(crate) fn build_definition(
    alloc: Global,
    index: usize,
    values: &mut Stack,
) -> Result<Value, NoMem>
    requires { CanBuild N.Definition index (reverse values.old) }
    ensures { IfOk result (λ it. IsBuilt N.Definition index (reverse values.old) it (reverse values.new)) }
{
    match index {
        0 => definition_0(alloc, values),
        _ => unreachable!(),
    }
}

pub(crate) fn build_fuel_parameter(index: usize, values: &mut Stack) -> Result<Value, NoMem>
    requires { CanBuild N.FuelParameter index (reverse values.old) }
    ensures { IfOk result (λ it. IsBuilt N.FuelParameter index (reverse values.old) it (reverse values.new)) }
{
    match index {
        0 => Ok(fuel_parameter_0(values)),
        _ => unreachable!(),
    }
}

pub(crate) fn build_fuel_match(index: usize, values: &mut Stack) -> Result<Value, NoMem>
    requires { CanBuild N.FuelMatch index (reverse values.old) }
    ensures { IfOk result (λ it. IsBuilt N.FuelMatch index (reverse values.old) it (reverse values.new)) }
{
    match index {
        0 => Ok(fuel_match_0(values)),
        _ => unreachable!(),
    }
}

pub(crate) fn build_definition_name(
    alloc: Global,
    index: usize,
    values: &mut Stack,
) -> Result<Value, NoMem>
    requires { CanBuild N.DefinitionName index (reverse values.old) }
    ensures { IfOk result (λ it. IsBuilt N.DefinitionName index (reverse values.old) it (reverse values.new)) }
{
    match index {
        0 => definition_name_0(alloc, values),
        _ => unreachable!(),
    }
}

pub(crate) fn build_name_end(
    alloc: Global,
    index: usize,
    values: &mut Stack,
) -> Result<Value, NoMem>
    requires { CanBuild N.NameEnd index (reverse values.old) }
    ensures { IfOk result (λ it. IsBuilt N.NameEnd index (reverse values.old) it (reverse values.new)) }
{
    match index {
        0 => name_end_0(alloc, values),
        1 => name_end_1(alloc, values),
        _ => unreachable!(),
    }
}

pub(crate) fn build_name_part(
    alloc: Global,
    index: usize,
    values: &mut Stack,
) -> Result<Value, NoMem>
    requires { CanBuild N.NamePart index (reverse values.old) }
    ensures { IfOk result (λ it. IsBuilt N.NamePart index (reverse values.old) it (reverse values.new)) }
{
    match index {
        0 => name_part_0(alloc, values),
        1 => name_part_1(alloc, values),
        _ => unreachable!(),
    }
}

pub(crate) fn build_back_end(
    alloc: Global,
    index: usize,
    values: &mut Stack,
) -> Result<Value, NoMem>
    requires { CanBuild N.BackEnd index (reverse values.old) }
    ensures { IfOk result (λ it. IsBuilt N.BackEnd index (reverse values.old) it (reverse values.new)) }
{
    match index {
        0 => back_end_0(alloc, values),
        1 => back_end_1(alloc, values),
        _ => unreachable!(),
    }
}

pub(crate) fn build_implicit_parameters(
    alloc: Global,
    index: usize,
    values: &mut Stack,
) -> Result<Value, NoMem>
    requires { CanBuild N.ImplicitParameters index (reverse values.old) }
    ensures { IfOk result (λ it. IsBuilt N.ImplicitParameters index (reverse values.old) it (reverse values.new)) }
{
    match index {
        0 => Ok(type_parameters_0(alloc, values)),
        1 => type_parameters_1(values),
        _ => unreachable!(),
    }
}

pub(crate) fn build_parameters(
    alloc: Global,
    index: usize,
    values: &mut Stack,
) -> Result<Value, NoMem>
    requires { CanBuild N.Parameters index (reverse values.old) }
    ensures { IfOk result (λ it. IsBuilt N.Parameters index (reverse values.old) it (reverse values.new)) }
{
    match index {
        0 => Ok(fields_0(alloc, values)),
        1 => fields_1(values),
        _ => unreachable!(),
    }
}
