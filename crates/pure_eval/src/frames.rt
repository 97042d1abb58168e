ghost use Rattle.std.specs.Prelude.{◌≡◌, ◌+◌, ◌≤◌, IfOk, OnOk};
ghost use Rattle.text_meaning.specs.Evaluate.{evaluate};
ghost use Rattle.pure_eval.specs.Unwinding as spec;
ghost use Rattle.pure_eval.specs.Costs as costs;

use crate::arms::reversed;
use crate::variables::Variables;
use aen_base::{DefId, List, NoMem, at};
use pure_ast::{Code, Defs, PValue};
use std::alloc::Global;
use text_meaning::Answer;

/// Code that is to be run with variables, and the fuel of the calls in it.
#[derive(Drop)]
pub(crate) struct State<'a> {
    pub code: &'a Code,
    pub variables: Variables,
    pub fuel: u64,
}

/// A bind whose right side is being computed: the variable that takes the value, and what is run
/// then.
#[derive(Drop)]
pub(crate) struct Frame<'a> {
    pub variable: u32,
    pub rest: State<'a>,
}

/// What a turn leaves: code to run, or the answer of all pending work.
#[derive(Drop)]
pub(crate) enum Turn<'a> {
    Go(State<'a>),
    Done(Answer),
}

/// A call of a definition on values: its code with its arguments, or its answer where there is no
/// such definition or no fuel. The only error is want of memory.
pub(crate) fn enter<'a>(
    alloc: Global,
    defs: &'a Defs,
    def: DefId,
    values: List<PValue>,
    fuel: u64,
) -> Result<Turn<'a>, NoMem>
    ensures meaning { IfOk result (λ t. evaluate defs.now def.0 values fuel ≡ spec.turn_answer defs.now t) }
    ensures cost { IfOk result (λ t. costs.turn_cost defs.now t + 1 ≤ costs.weight (costs.longest defs.now) fuel) }
{
    let Some(definition) = at(defs.defs.as_slice(), def.0 as usize) else {
        return Ok(Turn::Done(Answer::Stuck));
    };
    if fuel == 0 {
        return Ok(Turn::Done(Answer::OutOfFuel));
    }
    Ok(Turn::Go(State {
        code: &definition.code,
        variables: arguments(alloc, values)?,
        fuel: fuel - 1,
    }))
}

/// The values as the variables from 0 on. The only error is want of memory.
fn arguments(alloc: Global, values: List<PValue>) -> Result<Variables, NoMem>
    ensures { IfOk result (λ v. v ≡ spec.arguments values) }
{
    let mut left = reversed(alloc, values)?;
    let mut variables = Variables::new(alloc);
    let mut place: u64 = 0;
    while let Some(value) = left.pop() {
        let Ok(variable) = u32::try_from(place) else {
            return Err(NoMem);
        };
        variables.push(variable, value)?;
        place += 1;
    }
    Ok(variables)
}

/// Hands an answer to the newest pending bind. An answer that is not Ok, or that no bind waits for,
/// is the answer of all. The only error is want of memory.
pub(crate) fn resume<'a>(stack: &mut List<Frame<'a>>, answer: Answer) -> Result<Turn<'a>, NoMem>
    ensures meaning { IfOk result (λ t. (defs : Defs) → spec.unwind defs stack.old answer ≡ spec.goes defs stack.new t) }
    ensures cost { IfOk result (λ t. (defs : Defs) → costs.whole_cost defs stack.new t ≤ costs.stack_cost defs stack.old) }
{
    match answer {
        Answer::Ok(value) => match stack.pop() {
            Some(frame) => Ok(Turn::Go(take_value(frame, value)?)),
            None => Ok(Turn::Done(Answer::Ok(value))),
        },
        failed => Ok(Turn::Done(failed)),
    }
}

/// What a pending bind runs once it has its value.
pub(crate) fn take_value<'a>(frame: Frame<'a>, value: PValue) -> Result<State<'a>, NoMem>
    ensures { IfOk result (λ s. s ≡ spec.with_taken frame.entry value) }
{
    let Frame { variable, rest } = frame;
    let State {
        code,
        mut variables,
        fuel,
    } = rest;
    variables.push(variable, value)?;
    Ok(State {
        code,
        variables,
        fuel,
    })
}
