//! What builds code by their productions. Written by tools/text_ways.py.

ghost use Rattle.std.specs.Prelude.{◌≡◌, reverse, IfOk};
ghost use Rattle.text_table.specs.declared.part.Part.TheVariants as N;
ghost use Rattle.raw_ways.specs.Built.{CanBuild, IsBuilt};

use aen_base::NoMem;
use raw_productions::code::{
    arms_0, arms_1, bound_0, bound_1, code_0, code_1, code_2, computation_0, computation_1,
    computation_2, computation_3, pattern_0, pattern_1, pattern_2, pattern_parts_0,
    pattern_parts_1,
};
use raw_productions::declarations::{names_1, type_parameters_0};
use raw_values::{Stack, Value};
use std::alloc::Global;

pub(crate) fn build_code(alloc: Global, index: usize, values: &mut Stack) -> Result<Value, NoMem>
    requires { CanBuild N.Code index (reverse values.old) }
    ensures { IfOk result (λ it. IsBuilt N.Code index (reverse values.old) it (reverse values.new)) }
{
    match index {
        0 => code_0(alloc, values),
        1 => code_1(alloc, values),
        2 => code_2(alloc, values),
        _ => unreachable!(),
    }
}

pub(crate) fn build_bound(alloc: Global, index: usize, values: &mut Stack) -> Result<Value, NoMem>
    requires { CanBuild N.Bound index (reverse values.old) }
    ensures { IfOk result (λ it. IsBuilt N.Bound index (reverse values.old) it (reverse values.new)) }
{
    match index {
        0 => bound_0(alloc, values),
        1 => bound_1(alloc, values),
        _ => unreachable!(),
    }
}

pub(crate) fn build_arms(alloc: Global, index: usize, values: &mut Stack) -> Result<Value, NoMem>
    requires { CanBuild N.Arms index (reverse values.old) }
    ensures { IfOk result (λ it. IsBuilt N.Arms index (reverse values.old) it (reverse values.new)) }
{
    match index {
        0 => Ok(arms_0(alloc, values)),
        1 => arms_1(values),
        _ => unreachable!(),
    }
}

pub(crate) fn build_pattern(alloc: Global, index: usize, values: &mut Stack) -> Result<Value, NoMem>
    requires { CanBuild N.Pattern index (reverse values.old) }
    ensures { IfOk result (λ it. IsBuilt N.Pattern index (reverse values.old) it (reverse values.new)) }
{
    match index {
        0 => pattern_0(alloc, values),
        1 => pattern_1(alloc, values),
        2 => pattern_2(alloc, values),
        _ => unreachable!(),
    }
}

pub(crate) fn build_pattern_parts(
    alloc: Global,
    index: usize,
    values: &mut Stack,
) -> Result<Value, NoMem>
    requires { CanBuild N.PatternParts index (reverse values.old) }
    ensures { IfOk result (λ it. IsBuilt N.PatternParts index (reverse values.old) it (reverse values.new)) }
{
    match index {
        0 => Ok(pattern_parts_0(alloc, values)),
        1 => pattern_parts_1(values),
        _ => unreachable!(),
    }
}

pub(crate) fn build_variables(
    alloc: Global,
    index: usize,
    values: &mut Stack,
) -> Result<Value, NoMem>
    requires { CanBuild N.Variables index (reverse values.old) }
    ensures { IfOk result (λ it. IsBuilt N.Variables index (reverse values.old) it (reverse values.new)) }
{
    match index {
        0 => Ok(type_parameters_0(alloc, values)),
        1 => names_1(values),
        _ => unreachable!(),
    }
}

pub(crate) fn build_computation(
    alloc: Global,
    index: usize,
    values: &mut Stack,
) -> Result<Value, NoMem>
    requires { CanBuild N.Computation index (reverse values.old) }
    ensures { IfOk result (λ it. IsBuilt N.Computation index (reverse values.old) it (reverse values.new)) }
{
    match index {
        0 => computation_0(alloc, values),
        1 => computation_1(alloc, values),
        2 => computation_2(alloc, values),
        3 => computation_3(alloc, values),
        _ => unreachable!(),
    }
}
