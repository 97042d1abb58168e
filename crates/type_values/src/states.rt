//! What was found so far: the types of variables, and the loops around.
ghost use Rattle.std.specs.Prelude.{◌≡◌, ◌∷◌, [], Some, IfOk, MatchOption, OnOk, option_copied, slice_set};
ghost use Rattle.type_rules.specs.Lists.{or_else, rest_of};
ghost use Rattle.type_rules.specs.States as spec;
ghost use Rattle.type_values.specs.Entered.{fresh_loop};

use crate::expecting::expected_copy;
use aen_base::{List, NoMem, at};
use core_ty::{Ty, TyNode};
use std::alloc::Global;
use std::mem;
use type_rules::forms::Expected;
use type_rules::{Loop, Scope, State};

/// The type of a variable. The only error is want of memory, here and below.
pub fn type_of_variable(alloc: Global, state: &State, variable: u32) -> Result<Ty, NoMem>
    ensures { IfOk result (λ t. t ≡ spec.type_of_variable state.now variable) }
{
    match at(state.types.as_slice(), variable as usize) {
        Some(ty) => ty.try_clone(alloc),
        None => Ok(Ty { node: TyNode::Unit }),
    }
}

/// Whether a variable may be written.
pub fn may_be_written(scope: &Scope, variable: u32) -> bool
    ensures { result ≡ spec.may_be_written scope.now variable }
{
    match at(scope.variables.as_slice(), variable as usize) {
        Some(found) => found.mutable || found.late,
        None => false,
    }
}

/// Notes the type of a variable.
#[tactic(auto, using(crate::specs::Setting::set_beyond))]
pub fn set_type(types: &mut List<Ty>, variable: u32, ty: Ty)
    ensures { types.new ≡ slice_set types.old variable ty }
{
    if (variable as usize) < types.len() {
        types.set(variable as usize, ty);
    }
}

/// A loop without a `break` so far, of which this is expected; of a `while` nothing is.
fn fresh(alloc: Global, number: u32, is_while: bool, expected: &Expected) -> Result<Loop, NoMem>
    ensures { IfOk result (λ l. l ≡ fresh_loop number is_while expected.now) }
{
    let expected = if is_while {
        None
    } else {
        expected_copy(alloc, expected)?
    };
    Ok(Loop {
        number,
        is_while,
        expected,
        found: None,
        broken: false,
    })
}

/// Enters a loop.
pub fn enter(
    alloc: Global,
    number: u32,
    is_while: bool,
    expected: &Expected,
    state: &mut State,
) -> Result<(), NoMem>
    ensures { OnOk result (state.new ≡ spec.entered number is_while expected.now state.old) }
{
    let mut loops = List::new(alloc);
    loops.push(fresh(alloc, number, is_while, expected)?)?;
    let around = mem::replace(&mut state.loops, List::new(alloc));
    loops.append(around)?;
    state.loops = loops;
    Ok(())
}

/// The loop of a state that has none.
fn no_loop() -> Loop
    ensures { result ≡ spec.no_loop }
{
    Loop {
        number: 0,
        is_while: false,
        expected: None,
        found: None,
        broken: false,
    }
}

/// The first of these loops, and the others.
#[tactic(auto, using(crate::proofs::Settings::first_of, crate::proofs::Settings::rest_before))]
fn first_and_rest(loops: List<Loop>) -> Result<(Loop, List<Loop>), NoMem>
    ensures { IfOk result (λ r. (r.0 ≡ spec.first_or loops spec.no_loop) × (r.1 ≡ rest_of loops)) }
{
    let mut others = loops;
    match others.pop() {
        None => Ok((no_loop(), others)),
        Some(last) => {
            if others.is_empty() {
                return Ok((last, others));
            }
            let (first, mut rest) = first_and_rest(others)?;
            rest.push(last)?;
            Ok((first, rest))
        }
    }
}

/// Leaves the innermost loop, which is given.
pub fn leave(alloc: Global, state: &mut State) -> Result<Loop, NoMem>
    ensures { IfOk result (λ l. (l ≡ spec.innermost state.old) × (state.new ≡ spec.left state.old)) }
{
    let loops = mem::replace(&mut state.loops, List::new(alloc));
    let (first, rest) = first_and_rest(loops)?;
    state.loops = rest;
    Ok(first)
}

/// The innermost loop, if there is one.
#[tactic(auto, using(crate::proofs::Settings::split_first, crate::proofs::Settings::none_first))]
pub fn innermost(state: &State) -> Option<&Loop>
    ensures { MatchOption (option_copied result) (state.now.loops ≡ []) (λ l. state.now.loops ≡ l ∷ rest_of state.now.loops) }
{
    at(state.loops.as_slice(), 0)
}

/// Notes in the innermost loop, if there is one, a `break` whose value has this type.
#[tactic(auto, using(crate::proofs::Settings::noted_first))]
pub fn break_out(alloc: Global, ty: &Ty, state: &mut State) -> Result<(), NoMem>
    ensures { OnOk result (state.new ≡ spec.broken_out ty.now state.old) }
{
    if state.loops.is_empty() {
        return Ok(());
    }
    let broken = noted(alloc, ty, state.loops.replace(0, no_loop()))?;
    state.loops.set(0, broken);
    Ok(())
}

/// What was found first.
fn found_first(alloc: Global, found: Option<Ty>, ty: &Ty) -> Result<Option<Ty>, NoMem>
    ensures { IfOk result (λ o. o ≡ or_else found (Some ty.now)) }
{
    match found {
        Some(found) => Ok(Some(found)),
        None => Ok(Some(ty.try_clone(alloc)?)),
    }
}

/// A loop that has a `break` whose value has this type.
fn noted(alloc: Global, ty: &Ty, around: Loop) -> Result<Loop, NoMem>
    ensures { IfOk result (λ l. l ≡ spec.break_noted ty.now around) }
{
    let Loop {
        number,
        is_while,
        expected,
        found,
        broken: _,
    } = around;
    let found = found_first(alloc, found, ty)?;
    Ok(Loop {
        number,
        is_while,
        expected,
        found,
        broken: true,
    })
}
