//! Places and values.
ghost use Rattle.std.specs.Prelude.{◌≡◌, IfOk};
ghost use Rattle.rust_ast.specs.Spelled as s;
ghost use Rattle.type_rules.specs.Places as spec;
ghost use Rattle.type_values.specs.Gives.{Answers, Gives};

use crate::{TypeFault, places};
use aen_base::{Boxed, NoMem, Span, Which};
use core_ty::{Ty, is_copy};
use region_sigs::is_large;
use rust_ast::spelled::{Form, FormNode, Place, PlaceNode, Val, ValNode};
use std::alloc::Global;
use type_rules::forms::{Raw, RawNode};
use type_rules::{KindOfFault, State};

/// A value with its type. The only error is want of memory, here and in the functions below.
pub fn value(alloc: Global, ty: Ty, never: bool, span: Span, form: Form) -> Result<Val, NoMem>
    ensures { IfOk result (λ v. v ≡ s.value ty never span form) }
{
    Ok(Val {
        node: ValNode::Value(ty, never, span, Boxed::new(alloc, form)?),
    })
}

/// A value that ends, as an expression stands.
pub fn of_type(alloc: Global, ty: Ty, span: Span, form: Form) -> Result<Raw, NoMem>
    ensures { IfOk result (λ r. r ≡ spec.of_type ty span form) }
{
    Ok(Raw {
        node: RawNode::Held(value(alloc, ty, false, span, form)?),
    })
}

/// The type of a value.
pub fn value_type(value: &Val) -> &Ty
    ensures { result.now ≡ spec.type_of value.now }
{
    match &value.node {
        ValNode::Value(ty, _, _, _) => ty,
    }
}

/// Whether a value has every type.
pub fn never_ends(value: &Val) -> bool
    ensures { result ≡ spec.never_ends value.now }
{
    match &value.node {
        ValNode::Value(_, never, _, _) => *never,
    }
}

/// The type of an expression as it stands.
pub fn raw_type(raw: &Raw) -> &Ty
    ensures { result.now ≡ spec.raw_type raw.now }
{
    match &raw.node {
        RawNode::Stands(_, ty, _) => ty,
        RawNode::Held(value) => value_type(value),
    }
}

/// Whether an expression as it stands has every type.
pub fn is_endless(raw: &Raw) -> bool
    ensures { result ≡ spec.is_endless raw.now }
{
    match &raw.node {
        RawNode::Stands(_, _, _) => false,
        RawNode::Held(value) => never_ends(value),
    }
}

/// Whether a place goes through a reference.
pub fn goes_through(place: &Place) -> bool
    ensures { result ≡ spec.goes_through place.now }
{
    match &place.node {
        PlaceNode::Variable(_) => false,
        PlaceNode::Field(inner, _) => goes_through(inner.get()),
        PlaceNode::Unbox(inner) => goes_through(inner.get()),
        PlaceNode::Through(_) => true,
        PlaceNode::ThroughValue(_) => true,
    }
}

/// What stands at a place, copied where `copies`, else moved.
pub fn use_of(alloc: Global, place: Place, copies: bool) -> Result<Form, NoMem>
    ensures { IfOk result (λ n. n ≡ s.use_of place copies) }
{
    let node = FormNode::UseOf(Boxed::new(alloc, place)?, copies);
    Ok(Form { node })
}

/// `&` of a place, or `&mut` of it.
pub fn borrow_of(alloc: Global, mutable: bool, place: Place) -> Result<Form, NoMem>
    ensures { IfOk result (λ n. n ≡ s.borrow mutable place) }
{
    let node = FormNode::Borrow(mutable, Boxed::new(alloc, place)?);
    Ok(Form { node })
}

/// A place used as a value: a copy or a move. At fault where it is moved through a reference.
pub fn used(alloc: Global, span: Span, raw: Raw) -> Result<Val, TypeFault>
    ensures { Answers (spec.used span raw) result }
{
    match raw.into_node() {
        RawNode::Held(value) => Ok(value),
        RawNode::Stands(place, ty, _) => {
            let copies = is_copy(&ty);
            if goes_through(&place) && !copies {
                return Err(TypeFault::At(span, KindOfFault::MoveOut));
            }
            let form = use_of(alloc, place, copies)?;
            Ok(value(alloc, ty, false, span, form)?)
        }
    }
}

/// Whether it is a place.
pub fn is_place(raw: &Raw) -> bool
    ensures { result ≡ spec.is_place raw.now }
{
    match &raw.node {
        RawNode::Stands(_, _, _) => true,
        RawNode::Held(_) => false,
    }
}

/// Whether it is a place that may be written.
pub fn is_writable(raw: &Raw) -> bool
    ensures { result ≡ spec.is_writable raw.now }
{
    match &raw.node {
        RawNode::Stands(_, _, writable) => *writable,
        RawNode::Held(_) => false,
    }
}

/// The place, where it is one; else that of what a value leads to.
pub fn the_place(alloc: Global, raw: Raw) -> Result<Place, NoMem>
    ensures { IfOk result (λ p. p ≡ spec.the_place raw) }
{
    match raw.into_node() {
        RawNode::Stands(place, _, _) => Ok(place),
        RawNode::Held(held) => places::through_value(alloc, held),
    }
}

/// An expression as it stands, in this state. `Limit` where its type is larger than the limit.
pub fn gives(raw: Raw, state: &State) -> Result<Raw, TypeFault>
    ensures { Gives (spec.gives raw state.now) result state.now }
{
    if is_large(raw_type(&raw)) {
        return Err(TypeFault::Limit(Which::TypeNodes, 1_001));
    }
    Ok(raw)
}
