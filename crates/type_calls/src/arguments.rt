//! Arguments, and the type arguments that they find. An argument is typed in three steps: what is
//! expected of it, its own typing, and what it gives then.
ghost use Rattle.std.specs.Prelude.{◌≡◌, IfOk, option_copied};
ghost use Rattle.type_calls.specs.Steps as steps;
ghost use Rattle.type_rules.specs.Arguments as spec;
ghost use Rattle.type_values.specs.Gives.{Gives};

use crate::finds::{copy_finds, finds_reference, is_bare, is_known, put_found};
use crate::matching::matched;
use crate::reaching::reached;
use aen_base::{List, NoMem, Span};
use core_ty::{Ty, TyNode};
use rust_ast::spelled::Val;
use std::alloc::Global;
use type_rules::KindOfFault;
use type_rules::forms::{Expected, ExpectedNode, Raw};
use type_values::TypeFault;
use type_values::values::{raw_type, used};
use type_values::written_out::{Taken, as_value, reborrow};

/// An argument where `&`, or `&mut`, to a type is wanted that isn't known yet: through boxes until it
/// matches, then reborrowed.
fn against_reference(
    alloc: Global,
    mutable: bool,
    wanted: &Ty,
    finds: &mut List<Option<Ty>>,
    span: Span,
    raw: Raw,
) -> Result<Val, TypeFault>
    ensures { Gives (steps.against_reference_at mutable wanted.now finds.old span raw) result finds.new }
{
    let ty = raw_type(&raw).try_clone(alloc)?;
    match &ty.node {
        TyNode::Ref(_, from, content) => {
            if mutable && !*from {
                return Err(TypeFault::At(span, KindOfFault::Mismatch));
            }
            let taken = Taken {
                span,
                mutable,
                from: *from,
            };
            against_content(alloc, taken, wanted, finds, content.get(), raw)
        }
        _ => Err(TypeFault::At(span, KindOfFault::Mismatch)),
    }
}

/// A reference to `content` where one to a type is wanted that isn't known yet.
fn against_content(
    alloc: Global,
    taken: Taken,
    wanted: &Ty,
    finds: &mut List<Option<Ty>>,
    content: &Ty,
    raw: Raw,
) -> Result<Val, TypeFault>
    ensures { Gives (spec.against_content taken.mutable taken.from content.now taken.span raw (steps.reached_from wanted.now finds.old content.now)) result finds.new }
{
    let bare = is_bare(finds.as_slice(), wanted);
    match reached(alloc, bare, wanted, finds.as_slice(), content)? {
        Some((inner, found)) => {
            *finds = found;
            Ok(reborrow(alloc, taken, &inner, content, raw)?)
        }
        None => Err(TypeFault::At(taken.span, KindOfFault::Mismatch)),
    }
}

/// An argument where any other type is wanted that isn't known yet.
fn against_type(
    alloc: Global,
    wanted: &Ty,
    finds: &mut List<Option<Ty>>,
    span: Span,
    raw: Raw,
) -> Result<Val, TypeFault>
    ensures { Gives (steps.against_type_at wanted.now finds.old span raw) result finds.new }
{
    let before = copy_finds(alloc, finds.as_slice())?;
    let fits = matched(alloc, wanted, raw_type(&raw), finds)?;
    if finds_reference(before.as_slice(), finds.as_slice()) {
        return Err(TypeFault::At(span, KindOfFault::NestedBorrow));
    }
    if !fits {
        return Err(TypeFault::At(span, KindOfFault::Mismatch));
    }
    used(alloc, span, raw)
}

/// An argument against a parameter's type that isn't known yet. At fault: `Mismatch` where it doesn't
/// match, `NestedBorrow` where it finds a type that holds a reference, `MoveOut`.
pub fn against(
    alloc: Global,
    wanted: &Ty,
    finds: &mut List<Option<Ty>>,
    span: Span,
    raw: Raw,
) -> Result<Val, TypeFault>
    ensures { Gives (spec.against wanted.now finds.old span raw) result finds.new }
{
    match &wanted.node {
        TyNode::Ref(_, mutable, content) => {
            against_reference(alloc, *mutable, content.get(), finds, span, raw)
        }
        _ => against_type(alloc, wanted, finds, span, raw),
    }
}

/// What is expected of an argument: the type of its parameter, once it is known. The only error is want
/// of memory.
pub fn argument_expected(
    alloc: Global,
    param: Option<&Ty>,
    finds: &[Option<Ty>],
) -> Result<Expected, NoMem>
    ensures { IfOk result (λ x. x ≡ steps.argument_expected (option_copied param.entry) finds.now) }
{
    match param {
        Some(ty) => known_expected(alloc, ty, finds),
        None => Ok(Expected {
            node: ExpectedNode::None,
        }),
    }
}

/// What is expected where a parameter has this type.
fn known_expected(alloc: Global, ty: &Ty, finds: &[Option<Ty>]) -> Result<Expected, NoMem>
    ensures { IfOk result (λ x. x ≡ steps.known_expected ty.now finds.now) }
{
    let node = if is_known(finds, ty) {
        ExpectedNode::Want(put_found(alloc, finds, ty)?)
    } else {
        ExpectedNode::None
    };
    Ok(Expected { node })
}

/// The value of an argument of which this was expected, and what is found with it.
pub fn argument_value(
    alloc: Global,
    param: Option<&Ty>,
    finds: &mut List<Option<Ty>>,
    expected: &Expected,
    span: Span,
    raw: Raw,
) -> Result<Val, TypeFault>
    ensures { Gives (steps.argument_value (option_copied param.entry) finds.old expected.now span raw) result finds.new }
{
    match param {
        Some(ty) => {
            if is_known(finds.as_slice(), ty) {
                return as_value(alloc, expected, span, raw);
            }
            against(alloc, ty, finds, span, raw)
        }
        None => as_value(alloc, expected, span, raw),
    }
}
