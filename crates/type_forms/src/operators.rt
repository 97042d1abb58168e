//! Operators on values. Each is at fault where it doesn't take a value's type, or where its own type
//! passes the limit.
ghost use Rattle.std.specs.Prelude.{◌≡◌};
ghost use Rattle.core_ty.specs.Types as t;
ghost use Rattle.rust_ast.specs.Spelled as s;
ghost use Rattle.type_forms.specs.Operator as spec;
ghost use Rattle.type_rules.specs.Operators as rules;
ghost use Rattle.type_rules.specs.Faults.{refuse};
ghost use Rattle.type_rules.specs.Places as places;
ghost use Rattle.type_rules.specs.TypeFacts.{is_integer_or_bool, is_not_integer, is_signed_integer};
ghost use Rattle.type_rules.specs.declared.fault.KindOfFault.TheVariants.{NotInteger};
ghost use Rattle.type_values.specs.Gives.{Gives};

use aen_base::{BinOp, Boxed, CmpOp, IntTy, Span};
use core_ty::{Ty, TyNode};
use rust_ast::spelled::{Form, FormNode, Val};
use std::alloc::Global;
use type_rules::forms::{Expected, ExpectedNode, Raw};
use type_rules::{KindOfFault, State};
use type_values::TypeFault;
use type_values::operators::{compares_type, takes_type};
use type_values::type_facts::{is_integer_or_bool, is_signed_integer};
use type_values::values::{gives, of_type, value_type};

/// An operator whose operands have one type.
#[derive(Clone, Copy)]
pub enum Operator {
    /// It gives a value of that type.
    Binary(BinOp),
    /// It gives a bool.
    Compare(CmpOp),
}

/// Whether the operator takes the type.
pub fn takes(operator: &Operator, ty: &Ty) -> bool
    ensures { result ≡ spec.takes operator.now ty.now }
{
    match operator {
        Operator::Binary(op) => takes_type(*op, ty),
        Operator::Compare(op) => compares_type(*op, ty),
    }
}

/// Whether no type is expected.
pub fn is_unexpected(expected: &Expected) -> bool
    ensures { result ≡ rules.is_unexpected expected.now }
{
    match &expected.node {
        ExpectedNode::None => true,
        ExpectedNode::Hint(_) => false,
        ExpectedNode::Want(_) => false,
    }
}

/// `-` of a value.
pub fn minus(
    alloc: Global,
    span: Span,
    at: Span,
    operand: Val,
    state: &State,
) -> Result<Raw, TypeFault>
    ensures { Gives (refuse (is_not_integer is_signed_integer (places.type_of operand)) at NotInteger (places.gives (places.of_type (places.type_of operand) span (s.minus operand)) state.now)) result state.now }
{
    if !is_signed_integer(value_type(&operand)) {
        return Err(TypeFault::At(at, KindOfFault::NotInteger));
    }
    let ty = value_type(&operand).try_clone(alloc)?;
    let node = FormNode::Minus(Boxed::new(alloc, operand)?);
    gives(of_type(alloc, ty, span, Form { node })?, state)
}

/// `!` of a value.
pub fn negation(
    alloc: Global,
    span: Span,
    at: Span,
    operand: Val,
    state: &State,
) -> Result<Raw, TypeFault>
    ensures { Gives (refuse (is_not_integer is_integer_or_bool (places.type_of operand)) at NotInteger (places.gives (places.of_type (places.type_of operand) span (s.negation operand)) state.now)) result state.now }
{
    if !is_integer_or_bool(value_type(&operand)) {
        return Err(TypeFault::At(at, KindOfFault::NotInteger));
    }
    let ty = value_type(&operand).try_clone(alloc)?;
    let node = FormNode::Negation(Boxed::new(alloc, operand)?);
    gives(of_type(alloc, ty, span, Form { node })?, state)
}

/// A value as an integer of this type.
pub fn cast(
    alloc: Global,
    span: Span,
    at: Span,
    operand: Val,
    to: &IntTy,
    state: &State,
) -> Result<Raw, TypeFault>
    ensures { Gives (refuse (is_not_integer is_integer_or_bool (places.type_of operand)) at NotInteger (places.gives (places.of_type (t.int to.now) span (s.cast operand to.now)) state.now)) result state.now }
{
    if !is_integer_or_bool(value_type(&operand)) {
        return Err(TypeFault::At(at, KindOfFault::NotInteger));
    }
    let ty = Ty {
        node: TyNode::Int(*to),
    };
    let node = FormNode::Cast(Boxed::new(alloc, operand)?, *to);
    gives(of_type(alloc, ty, span, Form { node })?, state)
}

/// An operator on two values, of the left one's type.
pub fn binary(
    alloc: Global,
    span: Span,
    op: &BinOp,
    left: Val,
    right: Val,
    state: &State,
) -> Result<Raw, TypeFault>
    ensures { Gives (places.gives (places.of_type (places.type_of left) span (s.binary op.now left right)) state.now) result state.now }
{
    let ty = value_type(&left).try_clone(alloc)?;
    let left = Boxed::new(alloc, left)?;
    let node = FormNode::Binary(*op, left, Boxed::new(alloc, right)?);
    gives(of_type(alloc, ty, span, Form { node })?, state)
}

/// A comparison of two values.
pub fn compare(
    alloc: Global,
    span: Span,
    op: &CmpOp,
    left: Val,
    right: Val,
    state: &State,
) -> Result<Raw, TypeFault>
    ensures { Gives (places.gives (places.of_type t.bool span (s.compare op.now left right)) state.now) result state.now }
{
    let left = Boxed::new(alloc, left)?;
    let node = FormNode::Compare(*op, left, Boxed::new(alloc, right)?);
    truth_value(alloc, span, Form { node }, state)
}

/// `&&` of two values, or `||`.
pub fn lazy(
    alloc: Global,
    span: Span,
    is_both: bool,
    left: Val,
    right: Val,
    state: &State,
) -> Result<Raw, TypeFault>
    ensures { Gives (places.gives (places.of_type t.bool span (spec.lazy_form is_both left right)) state.now) result state.now }
{
    let left = Boxed::new(alloc, left)?;
    let right = Boxed::new(alloc, right)?;
    let node = if is_both {
        FormNode::Both(left, right)
    } else {
        FormNode::Either(left, right)
    };
    truth_value(alloc, span, Form { node }, state)
}

/// What gives a bool.
fn truth_value(alloc: Global, span: Span, form: Form, state: &State) -> Result<Raw, TypeFault>
    ensures { Gives (places.gives (places.of_type t.bool span form) state.now) result state.now }
{
    let ty = Ty { node: TyNode::Bool };
    gives(of_type(alloc, ty, span, form)?, state)
}
