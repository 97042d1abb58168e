//! What builds blocks by their productions. Written by tools/source_build.py.

ghost use Rattle.std.specs.Prelude.{◌≡◌, reverse, IfOk};
ghost use Rattle.source_grammar.specs.declared.part.Part.TheVariants as N;
ghost use Rattle.source_values.specs.Stacked.{CanBuild, IsBuilt};

use aen_base::NoMem;
use source_expressions::blocks::{
    after_block_arm_0, after_block_like_0, after_block_like_1, after_expression_1, after_if_0,
    after_if_1, after_while_0, after_while_1, arm_body_0, arms_0, arms_1, block_0, block_like_0,
    block_like_1, block_like_2, block_like_3, block_like_4, if_0, let_value_0, let_value_1,
    more_statements_0, more_statements_1, more_statements_2, more_statements_3, statements_0,
    statements_1,
};
use source_items::items::{result_0, result_1};
use source_values::{Stack, Value};
use std::alloc::Global;

pub(crate) fn build_block(alloc: Global, index: usize, values: &mut Stack) -> Result<Value, NoMem>
    requires { CanBuild N.Block index (reverse values.old) }
    ensures { IfOk result (λ it. IsBuilt N.Block index (reverse values.old) it (reverse values.new)) }
{
    match index {
        0 => block_0(alloc, values),
        _ => unreachable!(),
    }
}

pub(crate) fn build_statements(
    alloc: Global,
    index: usize,
    values: &mut Stack,
) -> Result<Value, NoMem>
    requires { CanBuild N.Statements index (reverse values.old) }
    ensures { IfOk result (λ it. IsBuilt N.Statements index (reverse values.old) it (reverse values.new)) }
{
    match index {
        0 => Ok(statements_0(alloc, values)),
        1 => Ok(statements_1(values)),
        _ => unreachable!(),
    }
}

pub(crate) fn build_more_statements(
    alloc: Global,
    index: usize,
    values: &mut Stack,
) -> Result<Value, NoMem>
    requires { CanBuild N.MoreStatements index (reverse values.old) }
    ensures { IfOk result (λ it. IsBuilt N.MoreStatements index (reverse values.old) it (reverse values.new)) }
{
    match index {
        0 => Ok(more_statements_0(values)),
        1 => more_statements_1(alloc, values),
        2 => more_statements_2(alloc, values),
        3 => more_statements_3(alloc, values),
        _ => unreachable!(),
    }
}

pub(crate) fn build_after_block_like(
    alloc: Global,
    index: usize,
    values: &mut Stack,
) -> Result<Value, NoMem>
    requires { CanBuild N.AfterBlockLike index (reverse values.old) }
    ensures { IfOk result (λ it. IsBuilt N.AfterBlockLike index (reverse values.old) it (reverse values.new)) }
{
    match index {
        0 => after_block_like_0(alloc, values),
        1 => after_block_like_1(alloc, values),
        _ => unreachable!(),
    }
}

pub(crate) fn build_after_expression(
    alloc: Global,
    index: usize,
    values: &mut Stack,
) -> Result<Value, NoMem>
    requires { CanBuild N.AfterExpression index (reverse values.old) }
    ensures { IfOk result (λ it. IsBuilt N.AfterExpression index (reverse values.old) it (reverse values.new)) }
{
    match index {
        0 => after_block_like_0(alloc, values),
        1 => after_expression_1(alloc, values),
        _ => unreachable!(),
    }
}

pub(crate) fn build_let_type(index: usize, values: &mut Stack) -> Result<Value, NoMem>
    requires { CanBuild N.LetType index (reverse values.old) }
    ensures { IfOk result (λ it. IsBuilt N.LetType index (reverse values.old) it (reverse values.new)) }
{
    match index {
        0 => Ok(result_0(values)),
        1 => Ok(result_1(values)),
        _ => unreachable!(),
    }
}

pub(crate) fn build_let_value(index: usize, values: &mut Stack) -> Result<Value, NoMem>
    requires { CanBuild N.LetValue index (reverse values.old) }
    ensures { IfOk result (λ it. IsBuilt N.LetValue index (reverse values.old) it (reverse values.new)) }
{
    match index {
        0 => Ok(let_value_0(values)),
        1 => Ok(let_value_1(values)),
        _ => unreachable!(),
    }
}

pub(crate) fn build_block_like(
    alloc: Global,
    index: usize,
    values: &mut Stack,
) -> Result<Value, NoMem>
    requires { CanBuild N.BlockLike index (reverse values.old) }
    ensures { IfOk result (λ it. IsBuilt N.BlockLike index (reverse values.old) it (reverse values.new)) }
{
    match index {
        0 => block_like_0(alloc, values),
        1 => Ok(block_like_1(values)),
        2 => block_like_2(alloc, values),
        3 => block_like_3(alloc, values),
        4 => block_like_4(alloc, values),
        _ => unreachable!(),
    }
}

pub(crate) fn build_after_while(
    alloc: Global,
    index: usize,
    values: &mut Stack,
) -> Result<Value, NoMem>
    requires { CanBuild N.AfterWhile index (reverse values.old) }
    ensures { IfOk result (λ it. IsBuilt N.AfterWhile index (reverse values.old) it (reverse values.new)) }
{
    match index {
        0 => after_while_0(alloc, values),
        1 => after_while_1(alloc, values),
        _ => unreachable!(),
    }
}

pub(crate) fn build_if(alloc: Global, index: usize, values: &mut Stack) -> Result<Value, NoMem>
    requires { CanBuild N.If index (reverse values.old) }
    ensures { IfOk result (λ it. IsBuilt N.If index (reverse values.old) it (reverse values.new)) }
{
    match index {
        0 => if_0(alloc, values),
        _ => unreachable!(),
    }
}

pub(crate) fn build_after_if(
    alloc: Global,
    index: usize,
    values: &mut Stack,
) -> Result<Value, NoMem>
    requires { CanBuild N.AfterIf index (reverse values.old) }
    ensures { IfOk result (λ it. IsBuilt N.AfterIf index (reverse values.old) it (reverse values.new)) }
{
    match index {
        0 => after_if_0(alloc, values),
        1 => after_if_1(alloc, values),
        _ => unreachable!(),
    }
}

pub(crate) fn build_else(index: usize, values: &mut Stack) -> Result<Value, NoMem>
    requires { CanBuild N.Else index (reverse values.old) }
    ensures { IfOk result (λ it. IsBuilt N.Else index (reverse values.old) it (reverse values.new)) }
{
    match index {
        0 => Ok(let_value_0(values)),
        1 => Ok(let_value_1(values)),
        _ => unreachable!(),
    }
}

pub(crate) fn build_after_else(
    alloc: Global,
    index: usize,
    values: &mut Stack,
) -> Result<Value, NoMem>
    requires { CanBuild N.AfterElse index (reverse values.old) }
    ensures { IfOk result (λ it. IsBuilt N.AfterElse index (reverse values.old) it (reverse values.new)) }
{
    match index {
        0 => Ok(block_like_1(values)),
        1 => block_like_0(alloc, values),
        _ => unreachable!(),
    }
}

pub(crate) fn build_arms(alloc: Global, index: usize, values: &mut Stack) -> Result<Value, NoMem>
    requires { CanBuild N.Arms index (reverse values.old) }
    ensures { IfOk result (λ it. IsBuilt N.Arms index (reverse values.old) it (reverse values.new)) }
{
    match index {
        0 => Ok(arms_0(alloc, values)),
        1 => arms_1(values),
        _ => unreachable!(),
    }
}

pub(crate) fn build_arm_body(index: usize, values: &mut Stack) -> Result<Value, NoMem>
    requires { CanBuild N.ArmBody index (reverse values.old) }
    ensures { IfOk result (λ it. IsBuilt N.ArmBody index (reverse values.old) it (reverse values.new)) }
{
    match index {
        0 => Ok(arm_body_0(values)),
        1 => Ok(arm_body_0(values)),
        _ => unreachable!(),
    }
}

pub(crate) fn build_after_block_arm(
    alloc: Global,
    index: usize,
    values: &mut Stack,
) -> Result<Value, NoMem>
    requires { CanBuild N.AfterBlockArm index (reverse values.old) }
    ensures { IfOk result (λ it. IsBuilt N.AfterBlockArm index (reverse values.old) it (reverse values.new)) }
{
    match index {
        0 => Ok(after_block_arm_0(values)),
        1 => Ok(arms_0(alloc, values)),
        2 => arms_1(values),
        _ => unreachable!(),
    }
}

pub(crate) fn build_after_arm(
    alloc: Global,
    index: usize,
    values: &mut Stack,
) -> Result<Value, NoMem>
    requires { CanBuild N.AfterArm index (reverse values.old) }
    ensures { IfOk result (λ it. IsBuilt N.AfterArm index (reverse values.old) it (reverse values.new)) }
{
    match index {
        0 => Ok(after_block_arm_0(values)),
        1 => Ok(arms_0(alloc, values)),
        _ => unreachable!(),
    }
}
