//! What builds expressions by their productions. Written by tools/source_build.py.

ghost use Rattle.std.specs.Prelude.{◌≡◌, reverse, IfOk};
ghost use Rattle.source_grammar.specs.declared.part.Part.TheVariants as N;
ghost use Rattle.source_values.specs.Stacked.{CanBuild, IsBuilt};
ghost use Rattle.source_grammar.specs.declared.part.Context.TheVariants as At;

use aen_base::NoMem;
use source_expressions::blocks::{let_value_0, let_value_1};
use source_expressions::expressions::{
    after_first_1, after_open_0, after_open_1, borrowed_free_0, borrowed_free_1, core_free_0,
    core_free_1, core_free_2, core_free_3, core_free_6, expression_condition_0,
    expression_condition_1, field_name_0, initial_0, leading_cast_0, leading_expression_0,
    leading_expression_1, leading_expression_2, leading_expression_3, leading_unary_0,
    leading_unary_1, leading_unary_2, leading_unary_3, leading_unary_4, more_assign_free_0,
    more_assign_free_1, more_casts_0, more_casts_1, more_or_free_1, operand_1, postfix_1,
};
use source_grammar::{Context, Level};
use source_items::generics::type_parameters_0;
use source_values::{Stack, Value};
use std::alloc::Global;

pub(crate) fn build_expression_free(
    alloc: Global,
    index: usize,
    values: &mut Stack,
) -> Result<Value, NoMem>
    requires { CanBuild (N.Expression At.Free) index (reverse values.old) }
    ensures { IfOk result (λ it. IsBuilt (N.Expression At.Free) index (reverse values.old) it (reverse values.new)) }
{
    match index {
        0 => leading_expression_0(alloc, values),
        1 => leading_expression_1(alloc, values),
        2 => Ok(leading_expression_2(values)),
        3 => leading_expression_3(alloc, values),
        _ => unreachable!(),
    }
}

pub(crate) fn build_expression_condition(
    alloc: Global,
    index: usize,
    values: &mut Stack,
) -> Result<Value, NoMem>
    requires { CanBuild (N.Expression At.Condition) index (reverse values.old) }
    ensures { IfOk result (λ it. IsBuilt (N.Expression At.Condition) index (reverse values.old) it (reverse values.new)) }
{
    match index {
        0 => expression_condition_0(alloc, values),
        1 => expression_condition_1(alloc, values),
        2 => Ok(leading_expression_2(values)),
        3 => leading_expression_3(alloc, values),
        _ => unreachable!(),
    }
}

pub(crate) fn build_expression(
    alloc: Global,
    context: Context,
    index: usize,
    values: &mut Stack,
) -> Result<Value, NoMem>
    requires { CanBuild (N.Expression context) index (reverse values.old) }
    ensures { IfOk result (λ it. IsBuilt (N.Expression context) index (reverse values.old) it (reverse values.new)) }
{
    match context {
        Context::Free => build_expression_free(alloc, index, values),
        Context::Condition => build_expression_condition(alloc, index, values),
    }
}

pub(crate) fn build_leading_expression(
    alloc: Global,
    index: usize,
    values: &mut Stack,
) -> Result<Value, NoMem>
    requires { CanBuild N.LeadingExpression index (reverse values.old) }
    ensures { IfOk result (λ it. IsBuilt N.LeadingExpression index (reverse values.old) it (reverse values.new)) }
{
    match index {
        0 => leading_expression_0(alloc, values),
        1 => leading_expression_1(alloc, values),
        2 => Ok(leading_expression_2(values)),
        3 => leading_expression_3(alloc, values),
        _ => unreachable!(),
    }
}

pub(crate) fn build_operand(index: usize, values: &mut Stack) -> Result<Value, NoMem>
    requires { CanBuild N.Operand index (reverse values.old) }
    ensures { IfOk result (λ it. IsBuilt N.Operand index (reverse values.old) it (reverse values.new)) }
{
    match index {
        0 => Ok(let_value_0(values)),
        1 => Ok(operand_1(values)),
        _ => unreachable!(),
    }
}

pub(crate) fn build_more_assign(
    alloc: Global,
    context: Context,
    index: usize,
    values: &mut Stack,
) -> Result<Value, NoMem>
    requires { CanBuild (N.MoreAssign context) index (reverse values.old) }
    ensures { IfOk result (λ it. IsBuilt (N.MoreAssign context) index (reverse values.old) it (reverse values.new)) }
{
    match index {
        0 => Ok(more_assign_free_0(alloc, values)),
        1 => more_assign_free_1(alloc, values),
        _ => unreachable!(),
    }
}

pub(crate) fn build_level(
    alloc: Global,
    level: Level,
    context: Context,
    index: usize,
    values: &mut Stack,
) -> Result<Value, NoMem>
    requires { CanBuild (N.Level level context) index (reverse values.old) }
    ensures { IfOk result (λ it. IsBuilt (N.Level level context) index (reverse values.old) it (reverse values.new)) }
{
    match index {
        0 => leading_expression_3(alloc, values),
        _ => unreachable!(),
    }
}

pub(crate) fn build_leading_level(
    alloc: Global,
    level: Level,
    index: usize,
    values: &mut Stack,
) -> Result<Value, NoMem>
    requires { CanBuild (N.LeadingLevel level) index (reverse values.old) }
    ensures { IfOk result (λ it. IsBuilt (N.LeadingLevel level) index (reverse values.old) it (reverse values.new)) }
{
    match index {
        0 => leading_expression_3(alloc, values),
        _ => unreachable!(),
    }
}

pub(crate) fn build_operation(
    alloc: Global,
    level: Level,
    context: Context,
    values: &mut Stack,
) -> Result<Value, NoMem>
    requires { CanBuild (N.More level context) 1 (reverse values.old) }
    ensures { IfOk result (λ it. IsBuilt (N.More level context) 1 (reverse values.old) it (reverse values.new)) }
{
    match level {
        Level::Or => more_or_free_1(values),
        Level::And => more_or_free_1(values),
        Level::Compare => more_assign_free_1(alloc, values),
        Level::BitOr => more_or_free_1(values),
        Level::Xor => more_or_free_1(values),
        Level::BitAnd => more_or_free_1(values),
        Level::Shift => more_or_free_1(values),
        Level::Sum => more_or_free_1(values),
        Level::Product => more_or_free_1(values),
    }
}

pub(crate) fn build_more(
    alloc: Global,
    level: Level,
    context: Context,
    index: usize,
    values: &mut Stack,
) -> Result<Value, NoMem>
    requires { CanBuild (N.More level context) index (reverse values.old) }
    ensures { IfOk result (λ it. IsBuilt (N.More level context) index (reverse values.old) it (reverse values.new)) }
{
    match index {
        0 => Ok(more_assign_free_0(alloc, values)),
        1 => build_operation(alloc, level, context, values),
        _ => unreachable!(),
    }
}

pub(crate) fn build_cast(
    alloc: Global,
    context: Context,
    index: usize,
    values: &mut Stack,
) -> Result<Value, NoMem>
    requires { CanBuild (N.Cast context) index (reverse values.old) }
    ensures { IfOk result (λ it. IsBuilt (N.Cast context) index (reverse values.old) it (reverse values.new)) }
{
    match index {
        0 => leading_cast_0(alloc, values),
        _ => unreachable!(),
    }
}

pub(crate) fn build_leading_cast(
    alloc: Global,
    index: usize,
    values: &mut Stack,
) -> Result<Value, NoMem>
    requires { CanBuild N.LeadingCast index (reverse values.old) }
    ensures { IfOk result (λ it. IsBuilt N.LeadingCast index (reverse values.old) it (reverse values.new)) }
{
    match index {
        0 => leading_cast_0(alloc, values),
        _ => unreachable!(),
    }
}

pub(crate) fn build_more_casts(
    alloc: Global,
    index: usize,
    values: &mut Stack,
) -> Result<Value, NoMem>
    requires { CanBuild N.MoreCasts index (reverse values.old) }
    ensures { IfOk result (λ it. IsBuilt N.MoreCasts index (reverse values.old) it (reverse values.new)) }
{
    match index {
        0 => Ok(more_casts_0(alloc, values)),
        1 => more_casts_1(values),
        _ => unreachable!(),
    }
}

pub(crate) fn build_unary(
    alloc: Global,
    context: Context,
    index: usize,
    values: &mut Stack,
) -> Result<Value, NoMem>
    requires { CanBuild (N.Unary context) index (reverse values.old) }
    ensures { IfOk result (λ it. IsBuilt (N.Unary context) index (reverse values.old) it (reverse values.new)) }
{
    match index {
        0 => leading_unary_0(alloc, values),
        1 => leading_unary_1(alloc, values),
        2 => leading_unary_2(alloc, values),
        3 => leading_unary_3(alloc, values),
        4 => leading_unary_4(alloc, values),
        5 => leading_unary_4(alloc, values),
        _ => unreachable!(),
    }
}

pub(crate) fn build_leading_unary(
    alloc: Global,
    index: usize,
    values: &mut Stack,
) -> Result<Value, NoMem>
    requires { CanBuild N.LeadingUnary index (reverse values.old) }
    ensures { IfOk result (λ it. IsBuilt N.LeadingUnary index (reverse values.old) it (reverse values.new)) }
{
    match index {
        0 => leading_unary_0(alloc, values),
        1 => leading_unary_1(alloc, values),
        2 => leading_unary_2(alloc, values),
        3 => leading_unary_3(alloc, values),
        4 => leading_unary_4(alloc, values),
        _ => unreachable!(),
    }
}

pub(crate) fn build_borrowed(
    context: Context,
    index: usize,
    values: &mut Stack,
) -> Result<Value, NoMem>
    requires { CanBuild (N.Borrowed context) index (reverse values.old) }
    ensures { IfOk result (λ it. IsBuilt (N.Borrowed context) index (reverse values.old) it (reverse values.new)) }
{
    match index {
        0 => Ok(borrowed_free_0(values)),
        1 => Ok(borrowed_free_1(values)),
        _ => unreachable!(),
    }
}

pub(crate) fn build_postfix(alloc: Global, index: usize, values: &mut Stack) -> Result<Value, NoMem>
    requires { CanBuild N.Postfix index (reverse values.old) }
    ensures { IfOk result (λ it. IsBuilt N.Postfix index (reverse values.old) it (reverse values.new)) }
{
    match index {
        0 => Ok(type_parameters_0(alloc, values)),
        1 => postfix_1(values),
        _ => unreachable!(),
    }
}

pub(crate) fn build_field_name(
    alloc: Global,
    index: usize,
    values: &mut Stack,
) -> Result<Value, NoMem>
    requires { CanBuild N.FieldName index (reverse values.old) }
    ensures { IfOk result (λ it. IsBuilt N.FieldName index (reverse values.old) it (reverse values.new)) }
{
    match index {
        0 => field_name_0(alloc, values),
        1 => field_name_0(alloc, values),
        _ => unreachable!(),
    }
}

pub(crate) fn build_core(
    alloc: Global,
    context: Context,
    index: usize,
    values: &mut Stack,
) -> Result<Value, NoMem>
    requires { CanBuild (N.Core context) index (reverse values.old) }
    ensures { IfOk result (λ it. IsBuilt (N.Core context) index (reverse values.old) it (reverse values.new)) }
{
    match index {
        0 => Ok(core_free_0(values)),
        1 => Ok(core_free_1(values)),
        2 => Ok(core_free_2(values)),
        3 => core_free_3(alloc, values),
        4 => core_free_3(alloc, values),
        5 => core_free_3(alloc, values),
        6 => Ok(core_free_6(values)),
        7 => core_free_3(alloc, values),
        8 => core_free_3(alloc, values),
        _ => unreachable!(),
    }
}

pub(crate) fn build_after_open(
    alloc: Global,
    index: usize,
    values: &mut Stack,
) -> Result<Value, NoMem>
    requires { CanBuild N.AfterOpen index (reverse values.old) }
    ensures { IfOk result (λ it. IsBuilt N.AfterOpen index (reverse values.old) it (reverse values.new)) }
{
    match index {
        0 => Ok(after_open_0(alloc, values)),
        1 => after_open_1(values),
        _ => unreachable!(),
    }
}

pub(crate) fn build_after_first(
    alloc: Global,
    index: usize,
    values: &mut Stack,
) -> Result<Value, NoMem>
    requires { CanBuild N.AfterFirst index (reverse values.old) }
    ensures { IfOk result (λ it. IsBuilt N.AfterFirst index (reverse values.old) it (reverse values.new)) }
{
    match index {
        0 => Ok(after_open_0(alloc, values)),
        1 => after_first_1(values),
        _ => unreachable!(),
    }
}

pub(crate) fn build_initial(alloc: Global, index: usize, values: &mut Stack) -> Result<Value, NoMem>
    requires { CanBuild N.Initial index (reverse values.old) }
    ensures { IfOk result (λ it. IsBuilt N.Initial index (reverse values.old) it (reverse values.new)) }
{
    match index {
        0 => initial_0(alloc, values),
        _ => unreachable!(),
    }
}

pub(crate) fn build_initial_value(index: usize, values: &mut Stack) -> Result<Value, NoMem>
    requires { CanBuild N.InitialValue index (reverse values.old) }
    ensures { IfOk result (λ it. IsBuilt N.InitialValue index (reverse values.old) it (reverse values.new)) }
{
    match index {
        0 => Ok(let_value_0(values)),
        1 => Ok(let_value_1(values)),
        _ => unreachable!(),
    }
}
