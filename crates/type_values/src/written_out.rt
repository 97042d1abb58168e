//! What is written out where a value is taken.
ghost use Rattle.std.specs.Prelude.{◌≡◌, IfOk, false};
ghost use Rattle.core_ty.specs.Types as t;
ghost use Rattle.rust_ast.specs.Spelled as s;
ghost use Rattle.type_rules.specs.TypeFacts.{no_region};
ghost use Rattle.type_rules.specs.WrittenOut as spec;
ghost use Rattle.type_values.specs.Gives.{Answers};
ghost use Rattle.type_values.specs.Lent.{IsLent};

use crate::expecting::is_mismatch;
use crate::type_facts::{reference_to, same};
use crate::values::{borrow_of, is_endless, raw_type, use_of, used, value};
use crate::{TypeFault, places};
use aen_base::{Boxed, NoMem, Span};
use core_ty::{Ty, TyNode};
use rust_ast::spelled::{Form, FormNode, Place, Val, ValNode};
use std::alloc::Global;
use type_rules::KindOfFault;
use type_rules::forms::{Expected, ExpectedNode, Raw, RawNode};

/// A reference that is taken where one to a type is wanted: where it stands, the wanted kind, and the
/// kind that it has; true for `&mut`.
#[derive(Clone, Copy, PartialEq, Eq)]
pub struct Taken {
    pub span: Span,
    pub mutable: bool,
    pub from: bool,
}

/// Where the wanted type stands in a place of a type. The only error is want of memory, here and in
/// the functions below that answer `NoMem`.
pub fn unboxed(alloc: Global, ty: &Ty, wanted: &Ty, place: Place) -> Result<Place, NoMem>
    ensures { IfOk result (λ p. p ≡ spec.unboxed ty.now wanted.now place) }
{
    match &ty.node {
        TyNode::Boxed(inner) => {
            if same(ty, wanted) {
                return Ok(place);
            }
            let inside = places::unbox(alloc, place)?;
            unboxed(alloc, inner.get(), wanted, inside)
        }
        _ => Ok(place),
    }
}

/// The content of a borrow of this kind; any other form comes back.
fn lent(mutable: bool, form: Form) -> Result<Boxed<Place>, Form>
    ensures { IsLent mutable form result }
{
    match form.into_node() {
        FormNode::Borrow(kind, place) => {
            if kind == mutable {
                return Ok(place);
            }
            Err(Form {
                node: FormNode::Borrow(kind, place),
            })
        }
        other => Err(Form { node: other }),
    }
}

/// Where the content of a reference value stands.
pub fn content_of(alloc: Global, mutable: bool, held: Val) -> Result<Place, NoMem>
    ensures { IfOk result (λ p. p ≡ spec.content_of mutable held) }
{
    match held.into_node() {
        ValNode::Value(ty, never, span, form) => match lent(mutable, form.into_inner()) {
            Ok(place) => Ok(place.into_inner()),
            Err(form) => {
                let whole = value(alloc, ty, never, span, form)?;
                places::through_value(alloc, whole)
            }
        },
    }
}

/// The reborrow of a place or value whose type is a reference to `content`.
pub fn reborrow(
    alloc: Global,
    taken: Taken,
    wanted: &Ty,
    content: &Ty,
    raw: Raw,
) -> Result<Val, NoMem>
    ensures { IfOk result (λ v. v ≡ spec.reborrow taken.span taken.mutable wanted.now taken.from content.now raw) }
{
    match raw.into_node() {
        RawNode::Stands(place, ty, _) => {
            if same(content, wanted) && !taken.mutable && !taken.from {
                let form = use_of(alloc, place, true)?;
                return value(alloc, ty, false, taken.span, form);
            }
            let through = places::through(alloc, place)?;
            borrowed(alloc, taken, wanted, content, through)
        }
        RawNode::Held(held) => {
            if same(content, wanted) && taken.mutable == taken.from {
                return Ok(held);
            }
            let inside = content_of(alloc, taken.mutable, held)?;
            borrowed(alloc, taken, wanted, content, inside)
        }
    }
}

/// `&` or `&mut` of what is wanted in a place.
fn borrowed(
    alloc: Global,
    taken: Taken,
    wanted: &Ty,
    content: &Ty,
    place: Place,
) -> Result<Val, NoMem>
    ensures { IfOk result (λ v. v ≡ s.value (t.ref no_region taken.mutable wanted.now) false taken.span (s.borrow taken.mutable (spec.unboxed content.now wanted.now place))) }
{
    let inside = unboxed(alloc, content, wanted, place)?;
    let form = borrow_of(alloc, taken.mutable, inside)?;
    let ty = reference_to(alloc, taken.mutable, wanted)?;
    value(alloc, ty, false, taken.span, form)
}

/// A value, where a type is expected that fits.
fn written_out(alloc: Global, expected: &Expected, span: Span, raw: Raw) -> Result<Val, TypeFault>
    ensures { Answers (spec.written_out expected.now span raw) result }
{
    if let ExpectedNode::Want(wanted) = &expected.node {
        if let TyNode::Ref(_, mutable, inner) = &wanted.node {
            let ty = raw_type(&raw).try_clone(alloc)?;
            return reborrowed(alloc, span, *mutable, inner.get(), &ty, raw);
        }
    }
    used(alloc, span, raw)
}

/// What is written where a reference is wanted and this stands, of this type.
fn reborrowed(
    alloc: Global,
    span: Span,
    mutable: bool,
    wanted: &Ty,
    ty: &Ty,
    raw: Raw,
) -> Result<Val, TypeFault>
    ensures { Answers (spec.reborrowed span mutable wanted.now raw ty.now) result }
{
    match &ty.node {
        TyNode::Ref(_, from, content) => {
            let taken = Taken {
                span,
                mutable,
                from: *from,
            };
            Ok(reborrow(alloc, taken, wanted, content.get(), raw)?)
        }
        _ => Err(TypeFault::At(span, KindOfFault::Mismatch)),
    }
}

/// A value of it, compared with what is expected. At fault where its type is another, or where it is
/// moved through a reference.
pub fn as_value(alloc: Global, expected: &Expected, span: Span, raw: Raw) -> Result<Val, TypeFault>
    ensures { Answers (spec.as_value expected.now span raw) result }
{
    if is_endless(&raw) {
        return used(alloc, span, raw);
    }
    if is_mismatch(expected, raw_type(&raw)) {
        return Err(TypeFault::At(span, KindOfFault::Mismatch));
    }
    written_out(alloc, expected, span, raw)
}
