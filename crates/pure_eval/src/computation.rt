ghost use Rattle.std.specs.Prelude.{◌≡◌, IfOk};
ghost use Rattle.text_meaning.specs.Evaluate.{Calls, comp_answer};
ghost use Rattle.pure_eval.specs.Unwinding.{ran_answer};

use crate::primitives::primitive_answer;
use crate::terms::{term_value, term_values};
use crate::variables::Variables;
use aen_base::{DefId, List, NoMem, PanicKind};
use pure_ast::{Comp, PValue};
use std::alloc::Global;
use text_meaning::Answer;

/// What a computation comes to: an answer, or a call of a definition on values.
#[derive(Drop)]
pub(crate) enum Ran {
    Answered(Answer),
    Calls(DefId, List<PValue>),
}

/// Runs a computation up to its call. The only error is want of memory.
pub(crate) fn run_comp(alloc: Global, variables: &Variables, comp: &Comp) -> Result<Ran, NoMem>
    ensures { IfOk result (λ r. (calls : Calls) → comp_answer calls variables.now comp.now ≡ ran_answer calls r) }
{
    match comp {
        Comp::Ok(term) => match term_value(alloc, variables, term)? {
            Some(value) => Ok(Ran::Answered(Answer::Ok(value))),
            None => Ok(Ran::Answered(Answer::Stuck)),
        },
        Comp::Fail => Ok(Ran::Answered(Answer::Fail(PanicKind::Explicit))),
        Comp::Call(def, parts) => match term_values(alloc, variables, parts.as_slice())? {
            Some(values) => Ok(Ran::Calls(*def, values)),
            None => Ok(Ran::Answered(Answer::Stuck)),
        },
        Comp::Prim(primitive, parts) => match term_values(alloc, variables, parts.as_slice())? {
            Some(values) => Ok(Ran::Answered(primitive_answer(alloc, *primitive, values))),
            None => Ok(Ran::Answered(Answer::Stuck)),
        },
    }
}
