//! What is expected, forms without parts, and tuples. The only error is want of memory, where no other
//! is named.
ghost use Rattle.std.specs.Prelude.{◌≡◌, IfOk, map, option_copied};
ghost use Rattle.core_ty.specs.Types as t;
ghost use Rattle.rust_ast.specs.Patterns.{suffix};
ghost use Rattle.rust_ast.specs.Spelled as s;
ghost use Rattle.type_rules.specs.Expecting as expecting;
ghost use Rattle.type_rules.specs.Forms as forms;
ghost use Rattle.type_rules.specs.Operands as spec;
ghost use Rattle.type_rules.specs.Places as places;
ghost use Rattle.type_rules.specs.States as states;
ghost use Rattle.type_values.specs.Gives.{Gives};

use aen_base::{IntTy, List, NoMem, Span};
use core_ty::{Ty, TyNode};
use rust_ast::spelled::{Form, FormNode, Place, PlaceNode, Val};
use std::alloc::Global;
use type_rules::forms::{Expected, ExpectedNode, Raw, RawNode};
use type_rules::{Scope, State};
use type_values::TypeFault;
use type_values::expecting::for_part;
use type_values::literals::literal;
use type_values::states::{may_be_written, type_of_variable};
use type_values::values::{gives, of_type, value, value_type};

/// Nothing is expected.
pub fn nothing() -> Expected
    ensures { result ≡ forms.none }
{
    Expected {
        node: ExpectedNode::None,
    }
}

/// A bool is expected.
pub fn bool_hint() -> Expected
    ensures { result ≡ forms.hint t.bool }
{
    Expected {
        node: ExpectedNode::Hint(Ty { node: TyNode::Bool }),
    }
}

/// Unit is expected.
pub fn unit_hint() -> Expected
    ensures { result ≡ forms.hint t.unit }
{
    Expected {
        node: ExpectedNode::Hint(Ty { node: TyNode::Unit }),
    }
}

/// A type that is expected and compared with.
pub fn hint(alloc: Global, ty: &Ty) -> Result<Expected, NoMem>
    ensures { IfOk result (λ x. x ≡ forms.hint ty.now) }
{
    let node = ExpectedNode::Hint(ty.try_clone(alloc)?);
    Ok(Expected { node })
}

/// A type that is wanted.
pub fn want(alloc: Global, ty: &Ty) -> Result<Expected, NoMem>
    ensures { IfOk result (λ x. x ≡ forms.want ty.now) }
{
    let node = ExpectedNode::Want(ty.try_clone(alloc)?);
    Ok(Expected { node })
}

/// The type that is expected, if one is.
pub fn expected_type(expected: &Expected) -> Option<&Ty>
    ensures { option_copied result ≡ expecting.expected_type expected.now }
{
    match &expected.node {
        ExpectedNode::None => None,
        ExpectedNode::Hint(ty) => Some(ty),
        ExpectedNode::Want(ty) => Some(ty),
    }
}

/// What has every type: the type that is expected, else unit.
pub fn diverging(alloc: Global, expected: &Expected, span: Span, form: Form) -> Result<Raw, NoMem>
    ensures { IfOk result (λ r. r ≡ spec.diverging expected.now span form) }
{
    let ty = type_or_unit(alloc, expected)?;
    let node = RawNode::Held(value(alloc, ty, true, span, form)?);
    Ok(Raw { node })
}

/// The type that is expected, else unit.
pub fn type_or_unit(alloc: Global, expected: &Expected) -> Result<Ty, NoMem>
    ensures { IfOk result (λ y. y ≡ expecting.or_unit (expecting.expected_type expected.now)) }
{
    match expected_type(expected) {
        Some(ty) => ty.try_clone(alloc),
        None => Ok(Ty { node: TyNode::Unit }),
    }
}

/// An integer as it is written.
#[derive(Drop)]
pub struct Digits {
    pub span: Span,
    pub negative: bool,
    pub magnitude: u128,
    pub suffix: Option<IntTy>,
}

/// An integer. At fault where another type is expected, or where it is outside its type.
#[tactic(auto, unfolding(type_rules::specs::Operands::number_rule))]
pub fn number(
    alloc: Global,
    digits: &Digits,
    expected: &Expected,
    state: &State,
) -> Result<Raw, TypeFault>
    ensures { Gives (spec.number_rule digits.now.span digits.now.negative digits.now.magnitude (suffix digits.now.suffix) expected.now state.now) result state.now }
{
    let number = literal(
        digits.span,
        digits.negative,
        digits.magnitude,
        digits.suffix,
        expected_type(expected),
    )?;
    let ty = Ty {
        node: TyNode::Int(number.ty()),
    };
    let node = FormNode::Number(number);
    gives(of_type(alloc, ty, digits.span, Form { node })?, state)
}

/// A value as it stands.
pub fn held(held: Val) -> Raw
    ensures { result ≡ forms.held held }
{
    Raw {
        node: RawNode::Held(held),
    }
}

/// `true` or `false`.
pub fn truth(alloc: Global, span: Span, holds: bool) -> Result<Raw, NoMem>
    ensures { IfOk result (λ r. r ≡ places.of_type t.bool span (s.truth holds)) }
{
    let ty = Ty { node: TyNode::Bool };
    let node = FormNode::Truth(holds);
    of_type(alloc, ty, span, Form { node })
}

/// `panic!`.
pub fn panics(alloc: Global, expected: &Expected, span: Span) -> Result<Raw, NoMem>
    ensures { IfOk result (λ r. r ≡ spec.diverging expected.now span s.panic) }
{
    let node = FormNode::Panic;
    diverging(alloc, expected, span, Form { node })
}

/// A variable as a place.
pub fn variable(alloc: Global, scope: &Scope, number: u32, state: &State) -> Result<Raw, NoMem>
    ensures { IfOk result (λ r. r ≡ forms.stands (s.variable number) (states.type_of_variable state.now number) (states.may_be_written scope.now number)) }
{
    let ty = type_of_variable(alloc, state, number)?;
    let node = PlaceNode::Variable(number);
    let writable = may_be_written(scope, number);
    let node = RawNode::Stands(Place { node }, ty, writable);
    Ok(Raw { node })
}

/// What is expected of the parts of a tuple of so many: nothing, where another type is expected.
#[tactic(auto, using(core_ty::specs::Types::tys_back))]
pub fn parts_expected(
    alloc: Global,
    expected: &Expected,
    count: usize,
) -> Result<List<Expected>, NoMem>
    ensures { IfOk result (λ xs. xs ≡ spec.parts_expected expected.now count (expecting.expected_type expected.now)) }
{
    if let Some(ty) = expected_type(expected) {
        if let TyNode::Tuple(parts) = &ty.node {
            if parts.len() == count {
                return each_expected(alloc, expected, parts.as_slice());
            }
        }
    }
    Ok(List::new(alloc))
}

/// What is expected of parts of these types.
fn each_expected(alloc: Global, expected: &Expected, parts: &[Ty]) -> Result<List<Expected>, NoMem>
    ensures { IfOk result (λ xs. xs ≡ map (expecting.for_part expected.now) parts.now) }
{
    let mut all = List::new(alloc);
    for part in parts {
        all.push(for_part(alloc, expected, part)?)?;
    }
    Ok(all)
}

/// The types of values.
fn types_of(alloc: Global, values: &[Val]) -> Result<List<Ty>, NoMem>
    ensures { IfOk result (λ ts. t.tys ts ≡ spec.types_of (s.values values.now)) }
{
    let mut types = List::new(alloc);
    for value in values {
        types.push(value_type(value).try_clone(alloc)?)?;
    }
    Ok(types)
}

/// The type of a tuple of these values.
fn tuple_type(alloc: Global, values: &[Val]) -> Result<Ty, NoMem>
    ensures { IfOk result (λ ty. ty ≡ spec.tuple_type (s.values values.now)) }
{
    let node = match values {
        [] => TyNode::Unit,
        [_first, _rest @ ..] => TyNode::Tuple(types_of(alloc, values)?),
    };
    Ok(Ty { node })
}

/// A tuple, or `()`.
pub fn tuple(alloc: Global, span: Span, values: List<Val>) -> Result<Raw, NoMem>
    ensures { IfOk result (λ r. r ≡ places.of_type (spec.tuple_type (s.values values)) span (s.tuple (s.values values))) }
{
    let ty = tuple_type(alloc, values.as_slice())?;
    let node = FormNode::Tuple(values);
    of_type(alloc, ty, span, Form { node })
}
