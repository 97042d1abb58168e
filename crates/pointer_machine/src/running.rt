ghost use Rattle.std.specs.Prelude.{◌≡◌, slice_get, Some, IfOk, IsSomeAnd};
ghost use Rattle.sums_ast.specs.declared.function.Function.{Function};
ghost use Rattle.source_meaning.specs.Calling.{AreArguments, call_outcome};
ghost use Rattle.source_meaning.specs.Typing.{IsTyped};
ghost use Rattle.pointer_machine.specs.Outcomes.{IsSettled};
ghost use Rattle.pointer_machine.specs.Values as spec;

use crate::calls::call;
use crate::halt::{Halt, Stop};
use aen_base::{FnId, List, NoMem, Num, Span};
use pure_ast::{PValue, PValueNode};
use source_meaning::Outcome;
use std::alloc::Global;
use sums_ast::Program;

/// The numbers that values are; None where one is no number. The only error is want of memory.
fn numbers(alloc: Global, values: &[PValue]) -> Result<Option<List<Num>>, NoMem>
    ensures { IfOk result (λ o. o ≡ spec.numbers_of values.now) }
{
    let mut all = List::new(alloc);
    for value in values {
        match &value.node {
            PValueNode::Num(number) => all.push(*number)?,
            PValueNode::Bool(_) | PValueNode::Tuple(_) | PValueNode::Ctor(_, _) => {
                return Ok(None);
            }
        }
    }
    Ok(Some(all))
}

/// What a call with these arguments comes to at a bound. The only error is want of memory.
fn outcome(
    alloc: Global,
    program: &Program,
    f: FnId,
    span: Span,
    values: Option<List<Num>>,
    n: u64,
) -> Result<Outcome, NoMem>
    ensures { IfOk result (λ o. o ≡ spec.begun program.now n f.0 span values) }
{
    let Some(values) = values else {
        return Ok(Outcome::Stuck(span));
    };
    match call(alloc, program, n, span, f, values) {
        Ok(number) => Ok(Outcome::Value(PValue::number(number))),
        Err(Stop::Halted(Halt::Panic(kind))) => Ok(Outcome::Panic(kind)),
        Err(Stop::Halted(Halt::More)) => Ok(Outcome::More),
        Err(Stop::Halted(Halt::Stuck(place))) => Ok(Outcome::Stuck(place)),
        Err(Stop::Memory) => Err(NoMem),
    }
}

/// Runs function `f` of a typed program on arguments of its parameters' types, at a bound of `n`
/// nested calls, this one counted: one call more makes the outcome `More`. A value is of type u32,
/// and the outcome is never `Stuck`. The only error is want of memory.
pub fn run(
    alloc: Global,
    program: &Program,
    f: FnId,
    args: &[PValue],
    n: u64,
) -> Result<Outcome, NoMem>
    requires typed { IsTyped program.now }
    requires there { IsSomeAnd (slice_get program.now.functions f.0) (λ g. AreArguments g args.now) }
    ensures same { IfOk result (λ o. (g : Function) → slice_get program.now.functions f.0 ≡ Some g → o ≡ call_outcome program.now f.0 g args.now n) }
    ensures settled { IfOk result IsSettled }
{
    let function = &program.functions.as_slice()[f.0 as usize];
    let values = numbers(alloc, args)?;
    outcome(alloc, program, f, function.span, values, n)
}
