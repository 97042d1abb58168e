//! What builds types by their productions. Written by tools/text_ways.py.

ghost use Rattle.std.specs.Prelude.{◌≡◌, reverse, IfOk};
ghost use Rattle.text_table.specs.declared.part.Part.TheVariants as N;
ghost use Rattle.raw_ways.specs.Built.{CanBuild, IsBuilt};

use aen_base::NoMem;
use raw_productions::types::{
    after_type_name_0, after_type_name_1, factors_1, other_type_0, other_type_1, other_type_2,
    other_type_3, type_0, type_1, type_arguments_0, type_arguments_1, type_in_brackets_0,
    type_in_brackets_1, type_in_brackets_2,
};
use raw_values::{Stack, Value};
use std::alloc::Global;

pub(crate) fn build_type(alloc: Global, index: usize, values: &mut Stack) -> Result<Value, NoMem>
    requires { CanBuild N.Type index (reverse values.old) }
    ensures { IfOk result (λ it. IsBuilt N.Type index (reverse values.old) it (reverse values.new)) }
{
    match index {
        0 => type_0(alloc, values),
        1 => type_1(alloc, values),
        _ => unreachable!(),
    }
}

pub(crate) fn build_other_type(
    alloc: Global,
    index: usize,
    values: &mut Stack,
) -> Result<Value, NoMem>
    requires { CanBuild N.OtherType index (reverse values.old) }
    ensures { IfOk result (λ it. IsBuilt N.OtherType index (reverse values.old) it (reverse values.new)) }
{
    match index {
        0 => other_type_0(alloc, values),
        1 => other_type_1(alloc, values),
        2 => other_type_2(alloc, values),
        3 => other_type_3(alloc, values),
        _ => unreachable!(),
    }
}

pub(crate) fn build_type_in_brackets(
    alloc: Global,
    index: usize,
    values: &mut Stack,
) -> Result<Value, NoMem>
    requires { CanBuild N.TypeInBrackets index (reverse values.old) }
    ensures { IfOk result (λ it. IsBuilt N.TypeInBrackets index (reverse values.old) it (reverse values.new)) }
{
    match index {
        0 => type_in_brackets_0(alloc, values),
        1 => type_in_brackets_1(alloc, values),
        2 => type_in_brackets_2(alloc, values),
        _ => unreachable!(),
    }
}

pub(crate) fn build_after_type_name(index: usize, values: &mut Stack) -> Result<Value, NoMem>
    requires { CanBuild N.AfterTypeName index (reverse values.old) }
    ensures { IfOk result (λ it. IsBuilt N.AfterTypeName index (reverse values.old) it (reverse values.new)) }
{
    match index {
        0 => after_type_name_0(values),
        1 => after_type_name_1(values),
        _ => unreachable!(),
    }
}

pub(crate) fn build_type_arguments(
    alloc: Global,
    index: usize,
    values: &mut Stack,
) -> Result<Value, NoMem>
    requires { CanBuild N.TypeArguments index (reverse values.old) }
    ensures { IfOk result (λ it. IsBuilt N.TypeArguments index (reverse values.old) it (reverse values.new)) }
{
    match index {
        0 => Ok(type_arguments_0(alloc, values)),
        1 => type_arguments_1(values),
        _ => unreachable!(),
    }
}

pub(crate) fn build_factors(alloc: Global, index: usize, values: &mut Stack) -> Result<Value, NoMem>
    requires { CanBuild N.Factors index (reverse values.old) }
    ensures { IfOk result (λ it. IsBuilt N.Factors index (reverse values.old) it (reverse values.new)) }
{
    match index {
        0 => Ok(type_arguments_0(alloc, values)),
        1 => factors_1(values),
        _ => unreachable!(),
    }
}
