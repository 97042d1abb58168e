ghost use Rattle.std.specs.Prelude.{◌≡◌, IfSome};
ghost use Rattle.pure_eval.specs.Operands as spec;

use aen_base::{IntTy, List, Num};
use pure_ast::{PValue, PValueNode};

/// The one value of a list; None exactly where there is not one.
pub(crate) fn only(values: List<PValue>) -> Option<PValue>
    ensures { result ≡ spec.only values }
{
    let mut values = values;
    let Some(value) = values.pop() else {
        return None;
    };
    if values.is_empty() { Some(value) } else { None }
}

/// The two values of a list; None exactly where there are not two.
pub(crate) fn both(values: List<PValue>) -> Option<(PValue, PValue)>
    ensures { result ≡ spec.both values }
{
    let mut values = values;
    let Some(second) = values.pop() else {
        return None;
    };
    let Some(first) = values.pop() else {
        return None;
    };
    if values.is_empty() {
        Some((first, second))
    } else {
        None
    }
}

/// The number that a value is.
fn number_in(value: PValue) -> Option<Num>
    ensures { result ≡ spec.number_in value }
{
    match value.into_node() {
        PValueNode::Num(number) => Some(number),
        _ => None,
    }
}

/// The bool that a value is.
fn truth_in(value: PValue) -> Option<bool>
    ensures { result ≡ spec.truth_in value }
{
    match value.into_node() {
        PValueNode::Bool(truth) => Some(truth),
        _ => None,
    }
}

/// The number of this type that a value is.
fn typed(ty: IntTy, value: PValue) -> Option<Num>
    ensures is { result ≡ spec.typed ty value }
    ensures of_type { IfSome result (λ n. n.ty ≡ ty) }
{
    match number_in(value) {
        Some(number) if number.ty() == ty => Some(number),
        _ => None,
    }
}

/// One number of this type.
pub(crate) fn one_number(ty: IntTy, values: List<PValue>) -> Option<Num>
    ensures is { result ≡ spec.one_number ty values }
    ensures of_type { IfSome result (λ n. n.ty ≡ ty) }
{
    match only(values) {
        Some(value) => typed(ty, value),
        None => None,
    }
}

/// Two numbers of this type.
pub(crate) fn two_numbers(ty: IntTy, values: List<PValue>) -> Option<(Num, Num)>
    ensures is { result ≡ spec.two_numbers ty values }
    ensures of_type { IfSome result (λ p. (p.0.ty ≡ ty) × (p.1.ty ≡ ty)) }
{
    let Some((first, second)) = both(values) else {
        return None;
    };
    match (typed(ty, first), typed(ty, second)) {
        (Some(first), Some(second)) => Some((first, second)),
        _ => None,
    }
}

/// A number of this type and a number of any type.
pub(crate) fn shift_numbers(ty: IntTy, values: List<PValue>) -> Option<(Num, Num)>
    ensures is { result ≡ spec.shift_numbers ty values }
    ensures of_type { IfSome result (λ p. p.0.ty ≡ ty) }
{
    let Some((first, second)) = both(values) else {
        return None;
    };
    match (typed(ty, first), number_in(second)) {
        (Some(first), Some(second)) => Some((first, second)),
        _ => None,
    }
}

/// One bool.
pub(crate) fn one_truth(values: List<PValue>) -> Option<bool>
    ensures { result ≡ spec.one_truth values }
{
    match only(values) {
        Some(value) => truth_in(value),
        None => None,
    }
}

/// Two bools.
pub(crate) fn two_truths(values: List<PValue>) -> Option<(bool, bool)>
    ensures { result ≡ spec.two_truths values }
{
    let Some((first, second)) = both(values) else {
        return None;
    };
    match (truth_in(first), truth_in(second)) {
        (Some(first), Some(second)) => Some((first, second)),
        _ => None,
    }
}
