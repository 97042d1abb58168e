ghost use Rattle.std.specs.Prelude.{◌≡◌, IfOk};
ghost use Rattle.pure_ast.specs.Values as v;
ghost use Rattle.text_meaning.specs.declared.Answer.TheVariants as A;
ghost use Rattle.text_meaning.specs.Atoms.{IsAtom};
ghost use Rattle.text_meaning.specs.Evaluate.{evaluate};
ghost use Rattle.text_meaning.specs.Lists.{Each};
ghost use Rattle.text_meaning.specs.WellFormed.{IsWellFormed};
ghost use Rattle.pure_eval.specs.Unwinding.{turn_answer, state_answer};

use crate::copies::copy_values;
use crate::frames::{State, Turn, enter};
use crate::turns::take_turn;
use aen_base::{DefId, List, NoMem};
use pure_ast::{Defs, PValue};
use std::alloc::Global;
use text_meaning::Answer;

/// The answer of the definition `def` on arguments with fuel `n`, for any definitions: a call with
/// no fuel is `OutOfFuel`, and each call within it has one less. `Stuck` comes exactly where there
/// is no definition of this number, or a variable has no value, a match no arm that fits, or a
/// primitive values of a wrong kind. The only error is want of memory.
pub fn eval(
    alloc: Global,
    defs: &Defs,
    def: DefId,
    args: &[PValue],
    n: u64,
) -> Result<Answer, NoMem>
    ensures answer { IfOk result (λ a. a ≡ evaluate defs.now def.0 args.now n) }
    // A value that well-formed definitions give on atoms is an atom.
    ensures kept { IfOk result (λ a. IsWellFormed defs.now → Each (IsAtom defs.now) args.now →
        (value : v.PValue) → a ≡ A.Ok value → IsAtom defs.now value) }
{
    let values = copy_values(alloc, args)?;
    match enter(alloc, defs, def, values, n)? {
        Turn::Go(state) => Ok(run_all(alloc, defs, state)?),
        Turn::Done(answer) => Ok(answer),
    }
}

/// Takes turns until no work is pending.
fn run_all<'a>(alloc: Global, defs: &'a Defs, state: State<'a>) -> Result<Answer, NoMem>
    ensures { IfOk result (λ a. a ≡ state_answer defs.now state.entry) }
{
    let mut stack = List::new(alloc);
    let mut state = state;
    loop {
        match take_turn(alloc, defs, state, &mut stack)? {
            Turn::Go(next) => state = next,
            Turn::Done(answer) => return Ok(answer),
        }
    }
}
