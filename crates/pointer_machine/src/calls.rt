ghost use Rattle.std.specs.Prelude.{◌≡◌, [], slice_get};
ghost use Rattle.sums_ast.specs.Tree.{exprs, stmts};
ghost use Rattle.pointer_machine.specs.Values as spec;
ghost use Rattle.pointer_machine.specs.Spine as spine;
ghost use Rattle.pointer_machine.specs.Given.{Gives, GivesAll, Declares};

use crate::halt::{Halt, Stop};
use crate::operator::operate;
use crate::spine::{First, Spine, along_left};
use aen_base::{FnId, List, Num, Span, VarId, at};
use std::alloc::Global;
use sums_ast::{Block, Expr, Program, Stmt, StmtNode};

/// The number that a variable holds.
fn variable(variables: &[Num], span: Span, id: VarId) -> Result<Num, Stop>
    ensures { Gives (spec.known span (slice_get variables.now id.0)) result }
{
    match at(variables, id.0 as usize) {
        Some(number) => Ok(*number),
        None => Err(Stop::Halted(Halt::Stuck(span))),
    }
}

/// What a `let` gives its variable.
fn bound_to(statement: &Stmt) -> &Expr
    ensures { result.now ≡ spec.bound_to statement.now }
{
    match &statement.node {
        StmtNode::Bind(_, _, value) => value.get(),
    }
}

/// An expression, where calls run at this bound. It goes along left sides in a loop.
#[cycle(calls)]
fn expression(
    alloc: Global,
    program: &Program,
    bound: u64,
    variables: &[Num],
    expr: &Expr,
) -> Result<Num, Stop>
    ensures { Gives (spec.value (spec.call_value program.now bound) variables.now expr.now) result }
{
    let Spine { first, mut rights } = along_left(alloc, expr)?;
    let mut value = begin(alloc, program, bound, variables, first)?;
    while let Some(right) = rights.pop() {
        let side = expression(alloc, program, bound, variables, right.side)?;
        value = operate(right.span, right.op, value, side)?;
    }
    Ok(value)
}

/// What stands first in an expression.
#[cycle(calls)]
fn begin(
    alloc: Global,
    program: &Program,
    bound: u64,
    variables: &[Num],
    first: First<'_>,
) -> Result<Num, Stop>
    ensures { Gives (spine.first_value (spec.call_value program.now bound) variables.now first.entry) result }
{
    match first {
        First::Number(number) => Ok(number),
        First::Variable(span, id) => variable(variables, span, id),
        First::Call(span, function, items) => {
            let values = arguments(alloc, program, bound, variables, items)?;
            call(alloc, program, bound, span, function, values)
        }
    }
}

/// Arguments, from left to right.
#[cycle(calls)]
fn arguments(
    alloc: Global,
    program: &Program,
    bound: u64,
    variables: &[Num],
    items: &[Expr],
) -> Result<List<Num>, Stop>
    ensures { GivesAll (spec.values (spec.call_value program.now bound) variables.now (exprs items.now) []) result }
{
    let mut values = List::new(alloc);
    for item in items {
        let value = expression(alloc, program, bound, variables, item)?;
        values.push(value)?;
    }
    Ok(values)
}

/// A call at this bound: at 0 it was too small, and the body runs at the bound less one.
#[cycle(calls)]
pub(crate) fn call(
    alloc: Global,
    program: &Program,
    bound: u64,
    span: Span,
    function: FnId,
    values: List<Num>,
) -> Result<Num, Stop>
    ensures { Gives (spec.call_value program.now bound span function.0 values) result }
{
    if bound == 0 {
        return Err(Stop::Halted(Halt::More));
    }
    match at(program.functions.as_slice(), function.0 as usize) {
        Some(called) => body(alloc, program, bound - 1, values, &called.body),
        None => Err(Stop::Halted(Halt::Stuck(span))),
    }
}

/// A function's body after its arguments.
#[cycle(calls)]
fn body(
    alloc: Global,
    program: &Program,
    bound: u64,
    values: List<Num>,
    block: &Block,
) -> Result<Num, Stop>
    ensures { Gives (spec.block_value (spec.call_value program.now bound) values block.now) result }
{
    let statements = block.node.statements.as_slice();
    let variables = declare(alloc, program, bound, values, statements)?;
    match &block.node.last {
        Some(value) => expression(alloc, program, bound, variables.as_slice(), value.get()),
        None => Err(Stop::Halted(Halt::Stuck(block.node.span))),
    }
}

/// The variables after statements: each `let` declares the next one.
#[cycle(calls)]
fn declare(
    alloc: Global,
    program: &Program,
    bound: u64,
    values: List<Num>,
    statements: &[Stmt],
) -> Result<List<Num>, Stop>
    ensures { Declares (spec.call_value program.now bound) values (stmts statements.now) result }
{
    let mut variables = values;
    for statement in statements {
        let value = bound_to(statement);
        let number = expression(alloc, program, bound, variables.as_slice(), value)?;
        variables.push(number)?;
    }
    Ok(variables)
}
