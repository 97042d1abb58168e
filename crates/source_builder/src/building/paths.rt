//! What builds paths by their productions. Written by tools/source_build.py.

ghost use Rattle.std.specs.Prelude.{◌≡◌, reverse, IfOk};
ghost use Rattle.source_grammar.specs.declared.part.Part.TheVariants as N;
ghost use Rattle.source_values.specs.Stacked.{CanBuild, IsBuilt};
ghost use Rattle.source_grammar.specs.declared.part.Context.TheVariants as At;

use aen_base::NoMem;
use source_expressions::paths::{
    after_assert_free_2, after_colons_free_0, after_colons_free_1, after_mem_colons_free_1,
    after_mem_free_1, after_mem_free_2, after_name_free_0, after_name_free_1, after_panic_free_2,
    after_path_0, after_path_1, after_path_2, after_std_colons_free_1, after_std_mem_0,
    after_std_mem_1, after_std_mem_2, after_std_mem_colons_0, after_std_mem_colons_1,
    after_turbo_free_0, after_turbo_free_1, applied_free_0, applied_free_1, assert_end_1,
    message_0, message_1,
};
use source_grammar::Context;
use source_values::{Stack, Value};
use std::alloc::Global;

pub(crate) fn build_after_name(
    context: Context,
    index: usize,
    values: &mut Stack,
) -> Result<Value, NoMem>
    requires { CanBuild (N.AfterName context) index (reverse values.old) }
    ensures { IfOk result (λ it. IsBuilt (N.AfterName context) index (reverse values.old) it (reverse values.new)) }
{
    match index {
        0 => Ok(after_name_free_0(values)),
        1 => Ok(after_name_free_1(values)),
        _ => unreachable!(),
    }
}

pub(crate) fn build_after_panic(
    context: Context,
    index: usize,
    values: &mut Stack,
) -> Result<Value, NoMem>
    requires { CanBuild (N.AfterPanic context) index (reverse values.old) }
    ensures { IfOk result (λ it. IsBuilt (N.AfterPanic context) index (reverse values.old) it (reverse values.new)) }
{
    match index {
        0 => Ok(after_name_free_0(values)),
        1 => Ok(after_name_free_1(values)),
        2 => Ok(after_panic_free_2(values)),
        _ => unreachable!(),
    }
}

pub(crate) fn build_after_assert(
    context: Context,
    index: usize,
    values: &mut Stack,
) -> Result<Value, NoMem>
    requires { CanBuild (N.AfterAssert context) index (reverse values.old) }
    ensures { IfOk result (λ it. IsBuilt (N.AfterAssert context) index (reverse values.old) it (reverse values.new)) }
{
    match index {
        0 => Ok(after_name_free_0(values)),
        1 => Ok(after_name_free_1(values)),
        2 => Ok(after_assert_free_2(values)),
        _ => unreachable!(),
    }
}

pub(crate) fn build_after_mem(
    context: Context,
    index: usize,
    values: &mut Stack,
) -> Result<Value, NoMem>
    requires { CanBuild (N.AfterMem context) index (reverse values.old) }
    ensures { IfOk result (λ it. IsBuilt (N.AfterMem context) index (reverse values.old) it (reverse values.new)) }
{
    match index {
        0 => Ok(after_name_free_0(values)),
        1 => Ok(after_mem_free_1(values)),
        2 => Ok(after_mem_free_2(values)),
        _ => unreachable!(),
    }
}

pub(crate) fn build_after_std(
    context: Context,
    index: usize,
    values: &mut Stack,
) -> Result<Value, NoMem>
    requires { CanBuild (N.AfterStd context) index (reverse values.old) }
    ensures { IfOk result (λ it. IsBuilt (N.AfterStd context) index (reverse values.old) it (reverse values.new)) }
{
    match index {
        0 => Ok(after_name_free_0(values)),
        1 => Ok(after_mem_free_1(values)),
        2 => Ok(after_mem_free_2(values)),
        _ => unreachable!(),
    }
}

pub(crate) fn build_name_more(
    context: Context,
    index: usize,
    values: &mut Stack,
) -> Result<Value, NoMem>
    requires { CanBuild (N.NameMore context) index (reverse values.old) }
    ensures { IfOk result (λ it. IsBuilt (N.NameMore context) index (reverse values.old) it (reverse values.new)) }
{
    match index {
        0 => Ok(after_mem_free_1(values)),
        1 => Ok(after_mem_free_2(values)),
        _ => unreachable!(),
    }
}

pub(crate) fn build_applied_free(index: usize, values: &mut Stack) -> Result<Value, NoMem>
    requires { CanBuild (N.Applied At.Free) index (reverse values.old) }
    ensures { IfOk result (λ it. IsBuilt (N.Applied At.Free) index (reverse values.old) it (reverse values.new)) }
{
    match index {
        0 => Ok(applied_free_0(values)),
        1 => Ok(applied_free_1(values)),
        _ => unreachable!(),
    }
}

pub(crate) fn build_applied_condition(index: usize, values: &mut Stack) -> Result<Value, NoMem>
    requires { CanBuild (N.Applied At.Condition) index (reverse values.old) }
    ensures { IfOk result (λ it. IsBuilt (N.Applied At.Condition) index (reverse values.old) it (reverse values.new)) }
{
    match index {
        0 => Ok(applied_free_0(values)),
        _ => unreachable!(),
    }
}

pub(crate) fn build_applied(
    context: Context,
    index: usize,
    values: &mut Stack,
) -> Result<Value, NoMem>
    requires { CanBuild (N.Applied context) index (reverse values.old) }
    ensures { IfOk result (λ it. IsBuilt (N.Applied context) index (reverse values.old) it (reverse values.new)) }
{
    match context {
        Context::Free => build_applied_free(index, values),
        Context::Condition => build_applied_condition(index, values),
    }
}

pub(crate) fn build_after_colons(
    alloc: Global,
    context: Context,
    index: usize,
    values: &mut Stack,
) -> Result<Value, NoMem>
    requires { CanBuild (N.AfterColons context) index (reverse values.old) }
    ensures { IfOk result (λ it. IsBuilt (N.AfterColons context) index (reverse values.old) it (reverse values.new)) }
{
    match index {
        0 => Ok(after_colons_free_0(values)),
        1 => after_colons_free_1(alloc, values),
        _ => unreachable!(),
    }
}

pub(crate) fn build_after_mem_colons(
    alloc: Global,
    context: Context,
    index: usize,
    values: &mut Stack,
) -> Result<Value, NoMem>
    requires { CanBuild (N.AfterMemColons context) index (reverse values.old) }
    ensures { IfOk result (λ it. IsBuilt (N.AfterMemColons context) index (reverse values.old) it (reverse values.new)) }
{
    match index {
        0 => Ok(after_colons_free_0(values)),
        1 => Ok(after_mem_colons_free_1(values)),
        2 => after_colons_free_1(alloc, values),
        _ => unreachable!(),
    }
}

pub(crate) fn build_after_std_colons(
    alloc: Global,
    context: Context,
    index: usize,
    values: &mut Stack,
) -> Result<Value, NoMem>
    requires { CanBuild (N.AfterStdColons context) index (reverse values.old) }
    ensures { IfOk result (λ it. IsBuilt (N.AfterStdColons context) index (reverse values.old) it (reverse values.new)) }
{
    match index {
        0 => Ok(after_colons_free_0(values)),
        1 => after_std_colons_free_1(alloc, values),
        2 => after_colons_free_1(alloc, values),
        _ => unreachable!(),
    }
}

pub(crate) fn build_after_std_mem(index: usize, values: &mut Stack) -> Result<Value, NoMem>
    requires { CanBuild N.AfterStdMem index (reverse values.old) }
    ensures { IfOk result (λ it. IsBuilt N.AfterStdMem index (reverse values.old) it (reverse values.new)) }
{
    match index {
        0 => Ok(after_std_mem_0(values)),
        1 => Ok(after_std_mem_1(values)),
        2 => Ok(after_std_mem_2(values)),
        _ => unreachable!(),
    }
}

pub(crate) fn build_after_std_mem_colons(index: usize, values: &mut Stack) -> Result<Value, NoMem>
    requires { CanBuild N.AfterStdMemColons index (reverse values.old) }
    ensures { IfOk result (λ it. IsBuilt N.AfterStdMemColons index (reverse values.old) it (reverse values.new)) }
{
    match index {
        0 => Ok(after_std_mem_colons_0(values)),
        1 => Ok(after_std_mem_colons_1(values)),
        _ => unreachable!(),
    }
}

pub(crate) fn build_after_turbo(
    alloc: Global,
    context: Context,
    index: usize,
    values: &mut Stack,
) -> Result<Value, NoMem>
    requires { CanBuild (N.AfterTurbo context) index (reverse values.old) }
    ensures { IfOk result (λ it. IsBuilt (N.AfterTurbo context) index (reverse values.old) it (reverse values.new)) }
{
    match index {
        0 => Ok(after_turbo_free_0(values)),
        1 => after_turbo_free_1(alloc, values),
        _ => unreachable!(),
    }
}

pub(crate) fn build_after_path(index: usize, values: &mut Stack) -> Result<Value, NoMem>
    requires { CanBuild N.AfterPath index (reverse values.old) }
    ensures { IfOk result (λ it. IsBuilt N.AfterPath index (reverse values.old) it (reverse values.new)) }
{
    match index {
        0 => Ok(after_path_0(values)),
        1 => Ok(after_path_1(values)),
        2 => Ok(after_path_2(values)),
        _ => unreachable!(),
    }
}

pub(crate) fn build_message(index: usize, values: &mut Stack) -> Result<Value, NoMem>
    requires { CanBuild N.Message index (reverse values.old) }
    ensures { IfOk result (λ it. IsBuilt N.Message index (reverse values.old) it (reverse values.new)) }
{
    match index {
        0 => Ok(message_0(values)),
        1 => Ok(message_1(values)),
        _ => unreachable!(),
    }
}

pub(crate) fn build_assert_end(index: usize, values: &mut Stack) -> Result<Value, NoMem>
    requires { CanBuild N.AssertEnd index (reverse values.old) }
    ensures { IfOk result (λ it. IsBuilt N.AssertEnd index (reverse values.old) it (reverse values.new)) }
{
    match index {
        0 => Ok(message_0(values)),
        1 => Ok(assert_end_1(values)),
        _ => unreachable!(),
    }
}

pub(crate) fn build_after_assert_comma(index: usize, values: &mut Stack) -> Result<Value, NoMem>
    requires { CanBuild N.AfterAssertComma index (reverse values.old) }
    ensures { IfOk result (λ it. IsBuilt N.AfterAssertComma index (reverse values.old) it (reverse values.new)) }
{
    match index {
        0 => Ok(message_0(values)),
        1 => Ok(assert_end_1(values)),
        _ => unreachable!(),
    }
}

pub(crate) fn build_after_message(index: usize, values: &mut Stack) -> Result<Value, NoMem>
    requires { CanBuild N.AfterMessage index (reverse values.old) }
    ensures { IfOk result (λ it. IsBuilt N.AfterMessage index (reverse values.old) it (reverse values.new)) }
{
    match index {
        0 => Ok(message_0(values)),
        1 => Ok(message_1(values)),
        _ => unreachable!(),
    }
}
