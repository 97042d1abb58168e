//! What builds patterns by their productions. Written by tools/source_build.py.

ghost use Rattle.std.specs.Prelude.{◌≡◌, reverse, IfOk};
ghost use Rattle.source_grammar.specs.declared.part.Part.TheVariants as N;
ghost use Rattle.source_values.specs.Stacked.{CanBuild, IsBuilt};

use aen_base::NoMem;
use source_items::patterns::{
    after_pattern_1, after_pattern_colons_0, after_pattern_colons_1, after_pattern_mem_colons_1,
    after_pattern_name_0, after_pattern_name_1, after_pattern_name_2, after_pattern_open_0,
    after_pattern_open_1, after_pattern_std_colons_1, after_pattern_std_mem_0,
    after_pattern_std_mem_1, after_pattern_std_mem_2, field_pattern_0, field_pattern_value_0,
    field_pattern_value_1, given_parts_0, given_parts_1, pattern_0, pattern_1, pattern_2,
    pattern_3, pattern_4, pattern_5, pattern_6, pattern_9, pattern_parts_0, pattern_parts_1,
};
use source_values::{Stack, Value};
use std::alloc::Global;

pub(crate) fn build_pattern(alloc: Global, index: usize, values: &mut Stack) -> Result<Value, NoMem>
    requires { CanBuild N.Pattern index (reverse values.old) }
    ensures { IfOk result (λ it. IsBuilt N.Pattern index (reverse values.old) it (reverse values.new)) }
{
    match index {
        0 => Ok(pattern_0(values)),
        1 => pattern_1(alloc, values),
        2 => Ok(pattern_2(values)),
        3 => Ok(pattern_3(values)),
        4 => Ok(pattern_4(values)),
        5 => Ok(pattern_5(values)),
        6 => pattern_6(alloc, values),
        7 => pattern_6(alloc, values),
        8 => pattern_6(alloc, values),
        9 => Ok(pattern_9(values)),
        _ => unreachable!(),
    }
}

pub(crate) fn build_after_pattern_open(
    alloc: Global,
    index: usize,
    values: &mut Stack,
) -> Result<Value, NoMem>
    requires { CanBuild N.AfterPatternOpen index (reverse values.old) }
    ensures { IfOk result (λ it. IsBuilt N.AfterPatternOpen index (reverse values.old) it (reverse values.new)) }
{
    match index {
        0 => Ok(after_pattern_open_0(alloc, values)),
        1 => after_pattern_open_1(values),
        _ => unreachable!(),
    }
}

pub(crate) fn build_after_pattern(
    alloc: Global,
    index: usize,
    values: &mut Stack,
) -> Result<Value, NoMem>
    requires { CanBuild N.AfterPattern index (reverse values.old) }
    ensures { IfOk result (λ it. IsBuilt N.AfterPattern index (reverse values.old) it (reverse values.new)) }
{
    match index {
        0 => Ok(after_pattern_open_0(alloc, values)),
        1 => after_pattern_1(values),
        _ => unreachable!(),
    }
}

pub(crate) fn build_field_pattern(
    alloc: Global,
    index: usize,
    values: &mut Stack,
) -> Result<Value, NoMem>
    requires { CanBuild N.FieldPattern index (reverse values.old) }
    ensures { IfOk result (λ it. IsBuilt N.FieldPattern index (reverse values.old) it (reverse values.new)) }
{
    match index {
        0 => field_pattern_0(alloc, values),
        _ => unreachable!(),
    }
}

pub(crate) fn build_field_pattern_value(index: usize, values: &mut Stack) -> Result<Value, NoMem>
    requires { CanBuild N.FieldPatternValue index (reverse values.old) }
    ensures { IfOk result (λ it. IsBuilt N.FieldPatternValue index (reverse values.old) it (reverse values.new)) }
{
    match index {
        0 => Ok(field_pattern_value_0(values)),
        1 => Ok(field_pattern_value_1(values)),
        _ => unreachable!(),
    }
}

pub(crate) fn build_pattern_parts(
    alloc: Global,
    index: usize,
    values: &mut Stack,
) -> Result<Value, NoMem>
    requires { CanBuild N.PatternParts index (reverse values.old) }
    ensures { IfOk result (λ it. IsBuilt N.PatternParts index (reverse values.old) it (reverse values.new)) }
{
    match index {
        0 => Ok(pattern_parts_0(alloc, values)),
        1 => Ok(pattern_parts_1(values)),
        _ => unreachable!(),
    }
}

pub(crate) fn build_given_parts(index: usize, values: &mut Stack) -> Result<Value, NoMem>
    requires { CanBuild N.GivenParts index (reverse values.old) }
    ensures { IfOk result (λ it. IsBuilt N.GivenParts index (reverse values.old) it (reverse values.new)) }
{
    match index {
        0 => Ok(given_parts_0(values)),
        1 => Ok(given_parts_1(values)),
        _ => unreachable!(),
    }
}

pub(crate) fn build_after_pattern_name(index: usize, values: &mut Stack) -> Result<Value, NoMem>
    requires { CanBuild N.AfterPatternName index (reverse values.old) }
    ensures { IfOk result (λ it. IsBuilt N.AfterPatternName index (reverse values.old) it (reverse values.new)) }
{
    match index {
        0 => Ok(after_pattern_name_0(values)),
        1 => Ok(after_pattern_name_1(values)),
        2 => Ok(after_pattern_name_2(values)),
        _ => unreachable!(),
    }
}

pub(crate) fn build_after_pattern_mem(index: usize, values: &mut Stack) -> Result<Value, NoMem>
    requires { CanBuild N.AfterPatternMem index (reverse values.old) }
    ensures { IfOk result (λ it. IsBuilt N.AfterPatternMem index (reverse values.old) it (reverse values.new)) }
{
    match index {
        0 => Ok(after_pattern_name_0(values)),
        1 => Ok(after_pattern_name_1(values)),
        2 => Ok(after_pattern_name_2(values)),
        _ => unreachable!(),
    }
}

pub(crate) fn build_after_pattern_std(index: usize, values: &mut Stack) -> Result<Value, NoMem>
    requires { CanBuild N.AfterPatternStd index (reverse values.old) }
    ensures { IfOk result (λ it. IsBuilt N.AfterPatternStd index (reverse values.old) it (reverse values.new)) }
{
    match index {
        0 => Ok(after_pattern_name_0(values)),
        1 => Ok(after_pattern_name_1(values)),
        2 => Ok(after_pattern_name_2(values)),
        _ => unreachable!(),
    }
}

pub(crate) fn build_after_pattern_colons(
    alloc: Global,
    index: usize,
    values: &mut Stack,
) -> Result<Value, NoMem>
    requires { CanBuild N.AfterPatternColons index (reverse values.old) }
    ensures { IfOk result (λ it. IsBuilt N.AfterPatternColons index (reverse values.old) it (reverse values.new)) }
{
    match index {
        0 => after_pattern_colons_0(alloc, values),
        1 => after_pattern_colons_1(alloc, values),
        _ => unreachable!(),
    }
}

pub(crate) fn build_after_pattern_mem_colons(
    alloc: Global,
    index: usize,
    values: &mut Stack,
) -> Result<Value, NoMem>
    requires { CanBuild N.AfterPatternMemColons index (reverse values.old) }
    ensures { IfOk result (λ it. IsBuilt N.AfterPatternMemColons index (reverse values.old) it (reverse values.new)) }
{
    match index {
        0 => after_pattern_colons_0(alloc, values),
        1 => Ok(after_pattern_mem_colons_1(values)),
        2 => after_pattern_colons_1(alloc, values),
        _ => unreachable!(),
    }
}

pub(crate) fn build_after_pattern_std_colons(
    alloc: Global,
    index: usize,
    values: &mut Stack,
) -> Result<Value, NoMem>
    requires { CanBuild N.AfterPatternStdColons index (reverse values.old) }
    ensures { IfOk result (λ it. IsBuilt N.AfterPatternStdColons index (reverse values.old) it (reverse values.new)) }
{
    match index {
        0 => after_pattern_colons_0(alloc, values),
        1 => after_pattern_std_colons_1(alloc, values),
        2 => after_pattern_colons_1(alloc, values),
        _ => unreachable!(),
    }
}

pub(crate) fn build_after_pattern_std_mem(
    alloc: Global,
    index: usize,
    values: &mut Stack,
) -> Result<Value, NoMem>
    requires { CanBuild N.AfterPatternStdMem index (reverse values.old) }
    ensures { IfOk result (λ it. IsBuilt N.AfterPatternStdMem index (reverse values.old) it (reverse values.new)) }
{
    match index {
        0 => Ok(after_pattern_std_mem_0(alloc, values)),
        1 => Ok(after_pattern_std_mem_1(values)),
        2 => Ok(after_pattern_std_mem_2(values)),
        _ => unreachable!(),
    }
}
