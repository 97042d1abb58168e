ghost use Rattle.std.specs.Prelude.{◌≡◌, ◌++◌, ◌<◌, true, Some, reverse, OnOk, IfOk, IfSome};
ghost use Rattle.std.specs.Option.{is_some, option_copied};
ghost use Rattle.pure_ast.specs.Code.{arms, nodes_code, nodes_arms};
ghost use Rattle.text_meaning.specs.Environment.{Environment};
ghost use Rattle.text_meaning.specs.Evaluate.{Calls, arms_answer, code_answer, or_stuck};
ghost use Rattle.text_meaning.specs.Patterns as spec;
ghost use Rattle.pure_eval.specs.Unwinding.{chosen};

use crate::variables::Variables;
use aen_base::{List, NoMem};
use pure_ast::{Code, CtorId, PValue, PValueNode, Pat};
use std::alloc::Global;

/// The code of the first arm whose pattern fits a value, with the pattern's variables added; None
/// exactly where no pattern fits. The only error is want of memory.
pub(crate) fn arm_taken<'a>(
    alloc: Global,
    variables: &mut Variables,
    all: &'a [(Pat, Code)],
    value: PValue,
) -> Result<Option<&'a Code>, NoMem>
    ensures meaning { IfOk result (λ r. (calls : Calls) → arms_answer calls variables.old (arms all.now) value ≡ or_stuck (option_copied r) (code_answer calls variables.new)) }
    ensures size { IfOk result (λ r. IfSome (option_copied r) (λ c. nodes_code c < nodes_arms (arms all.now))) }
{
    let Some(arm) = first_fit(all, &value) else {
        return Ok(None);
    };
    add_parts(alloc, variables, &arm.0, value)?;
    Ok(Some(&arm.1))
}

/// The first arm whose pattern fits a value; None exactly where no pattern fits.
fn first_fit<'a>(all: &'a [(Pat, Code)], value: &PValue) -> Option<&'a (Pat, Code)>
    ensures meaning { (calls : Calls) (env : Environment) → arms_answer calls env (arms all.now) value.now ≡ chosen calls env value.now (option_copied result) }
    ensures fits { IfSome (option_copied result) (λ arm. is_some (spec.fits arm.0 value.now) ≡ true) }
    ensures size { IfSome (option_copied result) (λ arm. nodes_code arm.1 < nodes_arms (arms all.now)) }
{
    for arm in all {
        if does_fit(&arm.0, value) {
            return Some(arm);
        }
    }
    None
}

/// Whether a pattern fits a value.
fn does_fit(pattern: &Pat, value: &PValue) -> bool
    ensures { result ≡ is_some (spec.fits pattern.now value.now) }
{
    match (pattern, &value.node) {
        (Pat::Bool(truth), PValueNode::Bool(other)) => is_same_truth(*truth, *other),
        (Pat::Tuple(variables), PValueNode::Tuple(parts)) => variables.len() == parts.len(),
        (Pat::Ctor(ctor, variables), PValueNode::Ctor(other, parts)) => {
            is_same_ctor(*ctor, *other) && variables.len() == parts.len()
        }
        _ => false,
    }
}

fn is_same_truth(truth: bool, other: bool) -> bool
    ensures { result ≡ spec.same_truth truth other }
{
    truth == other
}

fn is_same_ctor(ctor: CtorId, other: CtorId) -> bool
    ensures { result ≡ spec.same_ctor ctor other }
{
    match (ctor, other) {
        (CtorId::Of(ty, variant), CtorId::Of(other_ty, other_variant)) => {
            ty.0 == other_ty.0 && variant == other_variant
        }
        (CtorId::Brk, CtorId::Brk) => true,
        (CtorId::Ret, CtorId::Ret) => true,
        _ => false,
    }
}

/// Adds the variables of a pattern that fits a value, each with its part.
fn add_parts(
    alloc: Global,
    variables: &mut Variables,
    pattern: &Pat,
    value: PValue,
) -> Result<(), NoMem>
    ensures { OnOk result ((more : Environment) → spec.fits pattern.now value ≡ Some more → variables.new ≡ variables.old ++ more) }
{
    let node = value.into_node();
    match (pattern, node) {
        (Pat::Tuple(names), PValueNode::Tuple(parts)) => {
            add_all(alloc, variables, names.as_slice(), parts)
        }
        (Pat::Ctor(_, names), PValueNode::Ctor(_, parts)) => {
            add_all(alloc, variables, names.as_slice(), parts)
        }
        _ => Ok(()),
    }
}

/// Adds as many variables as there are values, in order.
fn add_all(
    alloc: Global,
    variables: &mut Variables,
    names: &[u32],
    values: List<PValue>,
) -> Result<(), NoMem>
    ensures { OnOk result ((more : Environment) → spec.bound names.now values ≡ Some more → variables.new ≡ variables.old ++ more) }
{
    let mut left = reversed(alloc, values)?;
    for name in names {
        let Some(value) = left.pop() else {
            return Ok(());
        };
        variables.push(*name, value)?;
    }
    Ok(())
}

/// The same values, the last one first. The only error is want of memory.
pub(crate) fn reversed(alloc: Global, values: List<PValue>) -> Result<List<PValue>, NoMem>
    ensures { IfOk result (λ all. all ≡ reverse values) }
{
    let mut left = values;
    let mut all = List::new(alloc);
    while let Some(value) = left.pop() {
        all.push(value)?;
    }
    Ok(all)
}
