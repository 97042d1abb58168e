//! Operators on places. Each is at fault where what stands there is no such place, or where its own
//! type passes the limit.
ghost use Rattle.std.specs.Prelude.{◌≡◌, ◌&&◌, IfOk, List};
ghost use Rattle.core_ty.specs.Types as t;
ghost use Rattle.rust_ast.specs.Spelled as s;
ghost use Rattle.type_rules.specs.Access as access;
ghost use Rattle.type_rules.specs.Faults.{refuse};
ghost use Rattle.type_rules.specs.Fields as fields;
ghost use Rattle.type_rules.specs.PlaceRules as rules;
ghost use Rattle.type_rules.specs.Places as spec;
ghost use Rattle.type_rules.specs.TypeFacts.{is_nested_borrow, no_region};
ghost use Rattle.type_rules.specs.declared.fault.KindOfFault.TheVariants.{NestedBorrow, NotMutable, NotPlace};
ghost use Rattle.type_values.specs.Gives.{Gives};

use aen_base::{BinOp, Boxed, Name, NoMem, Span};
use core_ty::{Ty, TyNode, TypeDecl};
use rust_ast::spelled::{Form, FormNode, Val};
use std::alloc::Global;
use type_rules::forms::Raw;
use type_rules::{KindOfFault, State};
use type_values::TypeFault;
use type_values::access::{dereferenced, field_of, stripped};
use type_values::fields::part_of;
use type_values::type_facts::{has_reference, reference_to};
use type_values::values::{gives, is_place, is_writable, of_type, raw_type, the_place};

/// What is at the end of the reference, or in the box. At fault at the operand where it is neither.
pub fn deref(alloc: Global, span: Span, at: Span, raw: Raw, state: &State) -> Result<Raw, TypeFault>
    ensures { Gives (rules.deref_given at (access.dereferenced (spec.raw_type raw) span raw) state.now) result state.now }
{
    let ty = raw_type(&raw).try_clone(alloc)?;
    match dereferenced(alloc, &ty, span, raw)? {
        None => Err(TypeFault::At(at, KindOfFault::NotInteger)),
        Some(inner) => gives(inner, state),
    }
}

/// `&` of a place, or `&mut`.
pub fn borrow(
    alloc: Global,
    span: Span,
    at: Span,
    mutable: bool,
    raw: Raw,
    state: &State,
) -> Result<Raw, TypeFault>
    ensures { Gives (refuse (spec.is_not_place raw) at NotPlace (refuse (mutable && spec.is_not_mutable raw) at NotMutable (refuse (is_nested_borrow (spec.raw_type raw)) span NestedBorrow (spec.gives (spec.of_type (t.ref no_region mutable (spec.raw_type raw)) span (s.borrow mutable (spec.the_place raw))) state.now)))) result state.now }
{
    if !is_place(&raw) {
        return Err(TypeFault::At(at, KindOfFault::NotPlace));
    }
    if mutable && !is_writable(&raw) {
        return Err(TypeFault::At(at, KindOfFault::NotMutable));
    }
    if has_reference(raw_type(&raw)) {
        return Err(TypeFault::At(span, KindOfFault::NestedBorrow));
    }
    let ty = reference_to(alloc, mutable, raw_type(&raw))?;
    let place = the_place(alloc, raw)?;
    let node = FormNode::Borrow(mutable, Boxed::new(alloc, place)?);
    gives(of_type(alloc, ty, span, Form { node })?, state)
}

/// What is reached through references and boxes.
pub fn strip(alloc: Global, span: Span, raw: Raw) -> Result<Raw, NoMem>
    ensures { IfOk result (λ r. r ≡ access.stripped (spec.raw_type raw) span raw) }
{
    let ty = raw_type(&raw).try_clone(alloc)?;
    stripped(alloc, &ty, span, raw)
}

/// A field and its name.
#[derive(Drop)]
pub struct Named<'a> {
    /// Where the name stands.
    pub span: Span,
    /// The name, or the place of a tuple's part.
    pub name: &'a Name,
}

/// A field of a struct or tuple. At fault at its name where the type has no such field.
pub fn field(
    alloc: Global,
    decls: &[TypeDecl],
    span: Span,
    named: &Named,
    raw: Raw,
    state: &State,
) -> Result<Raw, TypeFault>
    ensures { Gives (rules.field_given span named.now.span (fields.part_of decls.now named.now.name.now (spec.raw_type raw)) raw state.now) result state.now }
{
    match part_of(alloc, decls, named.name, raw_type(&raw))? {
        None => Err(TypeFault::At(named.span, KindOfFault::Field)),
        Some((number, ty)) => gives(field_of(alloc, span, number, ty, raw)?, state),
    }
}

/// An assignment.
pub fn assign(
    alloc: Global,
    span: Span,
    target: Raw,
    value: Val,
    state: &State,
) -> Result<Raw, TypeFault>
    ensures { Gives (spec.gives (spec.of_type t.unit span (s.assign (spec.the_place target) value)) state.now) result state.now }
{
    let value = Boxed::new(alloc, value)?;
    let place = the_place(alloc, target)?;
    let node = FormNode::Assign(Boxed::new(alloc, place)?, value);
    done(alloc, span, Form { node }, state)
}

/// An operator with an assignment.
pub fn update(
    alloc: Global,
    span: Span,
    op: &BinOp,
    target: Raw,
    value: Val,
    state: &State,
) -> Result<Raw, TypeFault>
    ensures { Gives (spec.gives (spec.of_type t.unit span (s.update (spec.raw_type target) op.now (spec.the_place target) value)) state.now) result state.now }
{
    let value = Boxed::new(alloc, value)?;
    let ty = raw_type(&target).try_clone(alloc)?;
    let place = the_place(alloc, target)?;
    let node = FormNode::Update(ty, *op, Boxed::new(alloc, place)?, value);
    done(alloc, span, Form { node }, state)
}

/// What gives unit.
fn done(alloc: Global, span: Span, form: Form, state: &State) -> Result<Raw, TypeFault>
    ensures { Gives (spec.gives (spec.of_type t.unit span form) state.now) result state.now }
{
    let ty = Ty { node: TyNode::Unit };
    gives(of_type(alloc, ty, span, form)?, state)
}
