//! Copies values, with the lists that are still to be copied on a stack of their own.
ghost use Rattle.std.specs.Prelude.{◌≡◌, ◌≤◌, ◌∷◌, ◌++◌, IfOk};
ghost use Rattle.pure_ast.specs.Values as trees;
ghost use Rattle.pure_eval.specs.Copying as spec;

use aen_base::{List, NoMem};
use pure_ast::{CtorId, PValue, PValueNode};
use std::alloc::Global;

/// A list that is being copied: the copies so far, and the values that are left.
#[derive(Drop)]
pub(crate) struct Copying<'a> {
    pub copied: List<PValue>,
    pub left: &'a [PValue],
}

/// What a list of parts belongs to.
#[derive(Drop)]
pub(crate) enum Owner {
    Tuple,
    Ctor(CtorId),
}

/// A list that waits for the copy of a value in it, whose parts are being copied.
#[derive(Drop)]
pub(crate) struct Waiting<'a> {
    pub list: Copying<'a>,
    pub owner: Owner,
}

/// A value's parts, which are copied next, and the values after it.
#[derive(Drop)]
pub(crate) struct Parts<'a> {
    pub owner: Owner,
    pub parts: &'a [PValue],
    pub left: &'a [PValue],
}

/// A copy of a value. The only error is want of memory.
pub(crate) fn copy_value(alloc: Global, value: &PValue) -> Result<PValue, NoMem>
    ensures { IfOk result (λ v. v ≡ value.now) }
{
    match &value.node {
        PValueNode::Num(number) => Ok(PValue::number(*number)),
        PValueNode::Bool(truth) => Ok(PValue::truth(*truth)),
        PValueNode::Tuple(parts) => Ok(PValue::tuple(copy_values(alloc, parts.as_slice())?)),
        PValueNode::Ctor(ctor, parts) => {
            Ok(PValue::built(*ctor, copy_values(alloc, parts.as_slice())?))
        }
    }
}

/// Copies of values, in order; their depth takes no stack. The only error is want of memory.
pub(crate) fn copy_values(alloc: Global, values: &[PValue]) -> Result<List<PValue>, NoMem>
    ensures { IfOk result (λ all. all ≡ values.now) }
{
    let mut stack = List::new(alloc);
    let mut list = Copying {
        copied: List::new(alloc),
        left: values,
    };
    loop {
        let Copying { mut copied, left } = list;
        match copy_plain(&mut copied, left)? {
            Some(Parts { owner, parts, left }) => {
                stack.push(Waiting {
                    list: Copying { copied, left },
                    owner,
                })?;
                list = Copying {
                    copied: List::new(alloc),
                    left: parts,
                };
            }
            None => match stack.pop() {
                Some(waiting) => list = put_copied(waiting, copied)?,
                None => return Ok(copied),
            },
        }
    }
}

/// Copies values up to the first that has parts.
fn copy_plain<'a>(
    copied: &mut List<PValue>,
    values: &'a [PValue],
) -> Result<Option<Parts<'a>>, NoMem>
    ensures meaning { IfOk result (λ found. spec.with_found copied.new found ≡ copied.old ++ values.now) }
    ensures cost { IfOk result (λ found. spec.found_cost found ≤ trees.nodes_pvalues (trees.pvalues values.now)) }
{
    let mut left = values;
    while let [first, rest @ ..] = left {
        match &first.node {
            PValueNode::Num(number) => copied.push(PValue::number(*number))?,
            PValueNode::Bool(truth) => copied.push(PValue::truth(*truth))?,
            PValueNode::Tuple(parts) => {
                return Ok(Some(Parts {
                    owner: Owner::Tuple,
                    parts: parts.as_slice(),
                    left: rest,
                }));
            }
            PValueNode::Ctor(ctor, parts) => {
                return Ok(Some(Parts {
                    owner: Owner::Ctor(*ctor),
                    parts: parts.as_slice(),
                    left: rest,
                }));
            }
        }
        left = rest;
    }
    Ok(None)
}

/// Gives a list that waits the value whose parts are copied.
fn put_copied<'a>(waiting: Waiting<'a>, parts: List<PValue>) -> Result<Copying<'a>, NoMem>
    ensures meaning { IfOk result (λ next. spec.finished next ≡ waiting.entry.list.copied ++ spec.owned waiting.entry.owner parts ∷ waiting.entry.list.left.now) }
    ensures cost { IfOk result (λ next. spec.list_cost next ≡ spec.list_cost waiting.entry.list) }
{
    let Waiting { list, owner } = waiting;
    let Copying { mut copied, left } = list;
    let value = match owner {
        Owner::Tuple => PValue::tuple(parts),
        Owner::Ctor(ctor) => PValue::built(ctor, parts),
    };
    copied.push(value)?;
    Ok(Copying { copied, left })
}
