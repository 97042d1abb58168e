ghost use Rattle.std.specs.Prelude.{◌≡◌, ◌+◌, ◌*◌, ◌<◌, ◌≤◌, IfOk};
ghost use Rattle.pure_ast.specs.Code.{arms, nodes_arms};
ghost use Rattle.pure_ast.specs.declared.def.Defs.{Defs};
ghost use Rattle.text_meaning.specs.Evaluate.{arms_answer, comp_answer, or_stuck, then_do};
ghost use Rattle.text_meaning.specs.Terms as terms;
ghost use Rattle.pure_eval.specs.Unwinding as spec;
ghost use Rattle.pure_eval.specs.Costs as costs;

use crate::arms::arm_taken;
use crate::computation::{Ran, run_comp};
use crate::frames::{Frame, State, Turn, enter, resume, take_value};
use crate::terms::term_value;
use crate::variables::Variables;
use aen_base::{List, NoMem};
use pure_ast::{Code, CodeNode, Comp, Defs, Pat, Term};
use std::alloc::Global;
use text_meaning::Answer;

/// One step of code, and the hand-over of its answer to the newest pending bind. The only error is
/// want of memory.
pub(crate) fn take_turn<'a>(
    alloc: Global,
    defs: &'a Defs,
    state: State<'a>,
    stack: &mut List<Frame<'a>>,
) -> Result<Turn<'a>, NoMem>
    ensures meaning { IfOk result (λ t. spec.unwind defs.now stack.old (spec.state_answer defs.now state.entry) ≡ spec.goes defs.now stack.new t) }
    ensures cost { IfOk result (λ t. costs.whole_cost defs.now stack.new t < costs.stack_cost defs.now stack.old + costs.state_cost defs.now state.entry) }
{
    match step(alloc, defs, state, stack)? {
        Turn::Go(next) => Ok(Turn::Go(next)),
        Turn::Done(answer) => Ok(resume(stack, answer)?),
    }
}

/// One step of code.
fn step<'a>(
    alloc: Global,
    defs: &'a Defs,
    state: State<'a>,
    stack: &mut List<Frame<'a>>,
) -> Result<Turn<'a>, NoMem>
    ensures meaning { IfOk result (λ t. spec.unwind defs.now stack.old (spec.state_answer defs.now state.entry) ≡ spec.unwind defs.now stack.new (spec.turn_answer defs.now t)) }
    ensures cost { IfOk result (λ t. costs.stack_cost defs.now stack.new + costs.turn_cost defs.now t < costs.stack_cost defs.now stack.old + costs.state_cost defs.now state.entry) }
{
    let State {
        code,
        variables,
        fuel,
    } = state;
    match &code.node {
        CodeNode::Bind(variable, comp, rest) => {
            let frame = pending(*variable, rest.get(), variables, fuel);
            Ok(bind(alloc, defs, comp, frame, stack)?)
        }
        CodeNode::Let(variable, term, rest) => {
            let frame = pending(*variable, rest.get(), variables, fuel);
            Ok(put(alloc, term, frame)?)
        }
        CodeNode::Match(term, all) => { Ok(select(alloc, term, all.as_slice(), variables, fuel)?) }
        CodeNode::Last(comp) => Ok(last(alloc, defs, comp, variables, fuel)?),
        CodeNode::BindMatch(variable, term, all, rest) => {
            let frame = pending(*variable, rest.get(), variables, fuel);
            Ok(bind_select(alloc, term, all.as_slice(), frame, stack)?)
        }
    }
}

/// A bind whose right side is to be computed.
fn pending<'a>(variable: u32, code: &'a Code, variables: Variables, fuel: u64) -> Frame<'a>
    ensures { result ≡ record { variable = variable; rest = record { code = code.entry; variables = variables; fuel = fuel } } }
{
    Frame {
        variable,
        rest: State {
            code,
            variables,
            fuel,
        },
    }
}

/// A bind of a computation's value.
fn bind<'a>(
    alloc: Global,
    defs: &'a Defs,
    comp: &Comp,
    frame: Frame<'a>,
    stack: &mut List<Frame<'a>>,
) -> Result<Turn<'a>, NoMem>
    ensures meaning { IfOk result (λ t. spec.unwind defs.now stack.old (then_do (comp_answer (spec.calls_at defs.now frame.entry.rest.fuel) frame.entry.rest.variables comp.now) (λ b. spec.state_answer defs.now (spec.with_taken frame.entry b))) ≡ spec.unwind defs.now stack.new (spec.turn_answer defs.now t)) }
    ensures cost { IfOk result (λ t. costs.stack_cost defs.now stack.new + costs.turn_cost defs.now t < costs.stack_cost defs.now stack.old + costs.state_cost defs.now frame.entry.rest + costs.weight (costs.longest defs.now) frame.entry.rest.fuel) }
{
    let fuel = frame.rest.fuel;
    let ran = run_comp(alloc, &frame.rest.variables, comp)?;
    stack.push(frame)?;
    Ok(call(alloc, defs, ran, fuel)?)
}

/// A variable for a term.
fn put<'a>(alloc: Global, term: &Term, frame: Frame<'a>) -> Result<Turn<'a>, NoMem>
    ensures meaning { IfOk result (λ t. (defs : Defs) → or_stuck (terms.term_value frame.entry.rest.variables term.now) (λ b. spec.state_answer defs (spec.with_taken frame.entry b)) ≡ spec.turn_answer defs t) }
    ensures cost { IfOk result (λ t. (defs : Defs) → costs.turn_cost defs t ≤ costs.state_cost defs frame.entry.rest) }
{
    match term_value(alloc, &frame.rest.variables, term)? {
        Some(value) => Ok(Turn::Go(take_value(frame, value)?)),
        None => Ok(Turn::Done(Answer::Stuck)),
    }
}

/// The first arm whose pattern fits.
fn select<'a>(
    alloc: Global,
    term: &Term,
    all: &'a [(Pat, Code)],
    variables: Variables,
    fuel: u64,
) -> Result<Turn<'a>, NoMem>
    ensures meaning { IfOk result (λ t. (defs : Defs) → or_stuck (terms.term_value variables term.now) (λ a. arms_answer (spec.calls_at defs fuel) variables (arms all.now) a) ≡ spec.turn_answer defs t) }
    ensures cost { IfOk result (λ t. (defs : Defs) → costs.turn_cost defs t ≤ nodes_arms (arms all.now) * costs.weight (costs.longest defs) fuel) }
{
    let Some(value) = term_value(alloc, &variables, term)? else {
        return Ok(Turn::Done(Answer::Stuck));
    };
    let mut variables = variables;
    match arm_taken(alloc, &mut variables, all, value)? {
        Some(code) => Ok(Turn::Go(State {
            code,
            variables,
            fuel,
        })),
        None => Ok(Turn::Done(Answer::Stuck)),
    }
}

/// The last computation.
fn last<'a>(
    alloc: Global,
    defs: &'a Defs,
    comp: &Comp,
    variables: Variables,
    fuel: u64,
) -> Result<Turn<'a>, NoMem>
    ensures meaning { IfOk result (λ t. comp_answer (spec.calls_at defs.now fuel) variables comp.now ≡ spec.turn_answer defs.now t) }
    ensures cost { IfOk result (λ t. costs.turn_cost defs.now t + 1 ≤ costs.weight (costs.longest defs.now) fuel) }
{
    let ran = run_comp(alloc, &variables, comp)?;
    Ok(call(alloc, defs, ran, fuel)?)
}

/// A bind of a match's value: the match's code has a copy of the variables.
fn bind_select<'a>(
    alloc: Global,
    term: &Term,
    all: &'a [(Pat, Code)],
    frame: Frame<'a>,
    stack: &mut List<Frame<'a>>,
) -> Result<Turn<'a>, NoMem>
    ensures meaning { IfOk result (λ t. (defs : Defs) → spec.unwind defs stack.old (then_do (or_stuck (terms.term_value frame.entry.rest.variables term.now) (λ a. arms_answer (spec.calls_at defs frame.entry.rest.fuel) frame.entry.rest.variables (arms all.now) a)) (λ b. spec.state_answer defs (spec.with_taken frame.entry b))) ≡ spec.unwind defs stack.new (spec.turn_answer defs t)) }
    ensures cost { IfOk result (λ t. (defs : Defs) → costs.stack_cost defs stack.new + costs.turn_cost defs t ≤ costs.stack_cost defs stack.old + costs.state_cost defs frame.entry.rest + nodes_arms (arms all.now) * costs.weight (costs.longest defs) frame.entry.rest.fuel) }
{
    let variables = frame.rest.variables.try_clone(alloc)?;
    let turn = select(alloc, term, all, variables, frame.rest.fuel)?;
    stack.push(frame)?;
    Ok(turn)
}

/// Enters the call at which a computation stopped.
fn call<'a>(alloc: Global, defs: &'a Defs, ran: Ran, fuel: u64) -> Result<Turn<'a>, NoMem>
    ensures meaning { IfOk result (λ t. spec.ran_answer (spec.calls_at defs.now fuel) ran ≡ spec.turn_answer defs.now t) }
    ensures cost { IfOk result (λ t. costs.turn_cost defs.now t + 1 ≤ costs.weight (costs.longest defs.now) fuel) }
{
    match ran {
        Ran::Answered(answer) => Ok(Turn::Done(answer)),
        Ran::Calls(def, values) => Ok(enter(alloc, defs, def, values, fuel)?),
    }
}
