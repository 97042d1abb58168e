//! `*` and fields of places and of values.
ghost use Rattle.std.specs.Prelude.{◌≡◌, IfOk};
ghost use Rattle.rust_ast.specs.Spelled as s;
ghost use Rattle.type_rules.specs.Access as spec;
ghost use Rattle.type_values.specs.Contents.{content_place};

use crate::places;
use crate::values::of_type;
use aen_base::{Boxed, NoMem, Span};
use core_ty::{Ty, TyNode, is_copy};
use rust_ast::spelled::{Form, FormNode, Place, Val};
use std::alloc::Global;
use type_rules::forms::{Raw, RawNode};

/// Where the content of a reference stands.
fn content(alloc: Global, raw: Raw) -> Result<Place, NoMem>
    ensures { IfOk result (λ p. p ≡ content_place raw) }
{
    match raw.into_node() {
        RawNode::Stands(place, _, _) => places::through(alloc, place),
        RawNode::Held(held) => places::through_value(alloc, held),
    }
}

/// What a reference of this kind to this type leads to, where it stands.
fn through(alloc: Global, mutable: bool, ty: Ty, raw: Raw) -> Result<Raw, NoMem>
    ensures { IfOk result (λ r. r ≡ spec.through mutable ty raw) }
{
    let place = content(alloc, raw)?;
    Ok(Raw {
        node: RawNode::Stands(place, ty, mutable),
    })
}

/// What is in a box that stands at no place.
fn unbox_of(alloc: Global, held: Val, copies: bool) -> Result<Form, NoMem>
    ensures { IfOk result (λ n. n ≡ s.unbox_of held copies) }
{
    let node = FormNode::UnboxOf(Boxed::new(alloc, held)?, copies);
    Ok(Form { node })
}

/// A field of a value that stands at no place.
fn field_of_value(alloc: Global, held: Val, number: u32, copies: bool) -> Result<Form, NoMem>
    ensures { IfOk result (λ n. n ≡ s.field_of held number copies) }
{
    let node = FormNode::FieldOf(Boxed::new(alloc, held)?, number, copies);
    Ok(Form { node })
}

/// What is in a box of this type, where it stands.
fn inside(alloc: Global, span: Span, ty: Ty, raw: Raw) -> Result<Raw, NoMem>
    ensures { IfOk result (λ r. r ≡ spec.within span ty raw) }
{
    match raw.into_node() {
        RawNode::Stands(place, _, writable) => {
            let place = places::unbox(alloc, place)?;
            Ok(Raw {
                node: RawNode::Stands(place, ty, writable),
            })
        }
        RawNode::Held(held) => {
            let form = unbox_of(alloc, held, is_copy(&ty))?;
            of_type(alloc, ty, span, form)
        }
    }
}

/// `*` of what has this type; nothing where it is neither a reference nor a box.
pub fn dereferenced(alloc: Global, ty: &Ty, span: Span, raw: Raw) -> Result<Option<Raw>, NoMem>
    ensures { IfOk result (λ r. r ≡ spec.dereferenced ty.now span raw) }
{
    match &ty.node {
        TyNode::Ref(_, mutable, content) => {
            let content = content.get().try_clone(alloc)?;
            Ok(Some(through(alloc, *mutable, content, raw)?))
        }
        TyNode::Boxed(content) => {
            let content = content.get().try_clone(alloc)?;
            Ok(Some(inside(alloc, span, content, raw)?))
        }
        _ => Ok(None),
    }
}

/// Through references and boxes to the first other type.
pub fn stripped(alloc: Global, ty: &Ty, span: Span, raw: Raw) -> Result<Raw, NoMem>
    ensures { IfOk result (λ r. r ≡ spec.stripped ty.now span raw) }
{
    match &ty.node {
        TyNode::Ref(_, mutable, content) => {
            let copy = content.get().try_clone(alloc)?;
            let next = through(alloc, *mutable, copy, raw)?;
            stripped(alloc, content.get(), span, next)
        }
        TyNode::Boxed(content) => {
            let copy = content.get().try_clone(alloc)?;
            let next = inside(alloc, span, copy, raw)?;
            stripped(alloc, content.get(), span, next)
        }
        _ => Ok(raw),
    }
}

/// The field with this number and type.
pub fn field_of(alloc: Global, span: Span, number: u32, ty: Ty, raw: Raw) -> Result<Raw, NoMem>
    ensures { IfOk result (λ r. r ≡ spec.field_of span number ty raw) }
{
    match raw.into_node() {
        RawNode::Stands(place, _, writable) => {
            let place = places::field(alloc, place, number)?;
            Ok(Raw {
                node: RawNode::Stands(place, ty, writable),
            })
        }
        RawNode::Held(held) => {
            let form = field_of_value(alloc, held, number, is_copy(&ty))?;
            of_type(alloc, ty, span, form)
        }
    }
}
