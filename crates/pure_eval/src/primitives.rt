ghost use Rattle.std.specs.Prelude.{◌≡◌};
ghost use Rattle.aen_base.specs.Operators.{is_shift};
ghost use Rattle.text_meaning.specs.Primitives as spec;

use crate::operands::{both, one_number, one_truth, only, shift_numbers, two_numbers, two_truths};
use aen_base::{
    BinOp, Builtin, CmpOp, IntTy, List, Num, PanicKind, RegionId, cast, checked, compare,
    from_bool, invert, negate,
};
use pure_ast::{BoolOp, PValue, Primitive};
use std::alloc::Global;
use text_meaning::Answer;

/// The answer of a primitive on values.
pub(crate) fn primitive_answer(alloc: Global, primitive: Primitive, values: List<PValue>) -> Answer
    ensures { result ≡ spec.primitive primitive values }
{
    match primitive {
        Primitive::Arith(ty, op) => arithmetic(ty, op, values),
        Primitive::Neg(ty) => negated(ty, values),
        Primitive::Not(ty) => inverted(ty, values),
        Primitive::Compare(ty, op) => compared(ty, op, values),
        Primitive::Bools(op) => truths(op, values),
        Primitive::Cast(from, to) => cast_number(from, to, values),
        Primitive::CastBool(ty) => cast_truth(ty, values),
        Primitive::Forward(function) => forward(alloc, function, values),
        Primitive::Back(function, region) => backward(function, region, values),
    }
}

/// The number, or the kind of panic.
fn answered(outcome: Result<Num, PanicKind>) -> Answer
    ensures { result ≡ spec.answered outcome }
{
    match outcome {
        Ok(number) => Answer::Ok(PValue::number(number)),
        Err(kind) => Answer::Fail(kind),
    }
}

fn arithmetic(ty: IntTy, op: BinOp, values: List<PValue>) -> Answer
    ensures { result ≡ spec.arithmetic ty op values }
{
    if is_shift_operator(op) {
        return match shift_numbers(ty, values) {
            Some((first, second)) => answered(checked(op, first, second)),
            None => Answer::Stuck,
        };
    }
    match two_numbers(ty, values) {
        Some(sides) => answered(checked(op, sides.0, sides.1)),
        None => Answer::Stuck,
    }
}

/// Whether the operator's sides may differ in type.
fn is_shift_operator(op: BinOp) -> bool
    ensures { result ≡ is_shift op }
{
    match op {
        BinOp::Shl | BinOp::Shr => true,
        _ => false,
    }
}

fn negated(ty: IntTy, values: List<PValue>) -> Answer
    ensures { result ≡ spec.primitive (Primitive.Neg ty) values }
{
    match one_number(ty, values) {
        Some(number) => answered(negate(number)),
        None => Answer::Stuck,
    }
}

fn inverted(ty: IntTy, values: List<PValue>) -> Answer
    ensures { result ≡ spec.primitive (Primitive.Not ty) values }
{
    match one_number(ty, values) {
        Some(number) => Answer::Ok(PValue::number(invert(number))),
        None => Answer::Stuck,
    }
}

fn compared(ty: IntTy, op: CmpOp, values: List<PValue>) -> Answer
    ensures { result ≡ spec.primitive (Primitive.Compare ty op) values }
{
    match two_numbers(ty, values) {
        Some((first, second)) => Answer::Ok(PValue::truth(compare(op, first, second))),
        None => Answer::Stuck,
    }
}

fn cast_number(from: IntTy, to: IntTy, values: List<PValue>) -> Answer
    ensures { result ≡ spec.primitive (Primitive.Cast from to) values }
{
    match one_number(from, values) {
        Some(number) => Answer::Ok(PValue::number(cast(number, to))),
        None => Answer::Stuck,
    }
}

fn cast_truth(ty: IntTy, values: List<PValue>) -> Answer
    ensures { result ≡ spec.cast_truth ty values }
{
    match one_truth(values) {
        Some(truth) => Answer::Ok(PValue::number(from_bool(truth, ty))),
        None => Answer::Stuck,
    }
}

fn truths(op: BoolOp, values: List<PValue>) -> Answer
    ensures { result ≡ spec.truths op values }
{
    if op == BoolOp::Not {
        return match one_truth(values) {
            Some(truth) => Answer::Ok(PValue::truth(!truth)),
            None => Answer::Stuck,
        };
    }
    match two_truths(values) {
        Some((first, second)) => on_truths(op, first, second),
        None => Answer::Stuck,
    }
}

fn on_truths(op: BoolOp, first: bool, second: bool) -> Answer
    ensures { result ≡ spec.on_truths op first second }
{
    match op {
        BoolOp::Eq => Answer::Ok(PValue::truth(first == second)),
        BoolOp::Ne => Answer::Ok(PValue::truth(first != second)),
        BoolOp::And => Answer::Ok(PValue::truth(first && second)),
        BoolOp::Or => Answer::Ok(PValue::truth(first || second)),
        BoolOp::Xor => Answer::Ok(PValue::truth(first != second)),
        BoolOp::Not => Answer::Stuck,
    }
}

/// What a built-in function gives.
fn forward(alloc: Global, function: Builtin, values: List<PValue>) -> Answer
    ensures { result ≡ spec.forward function values }
{
    match function {
        Builtin::BoxNew => match only(values) {
            Some(value) => Answer::Ok(value),
            None => Answer::Stuck,
        },
        Builtin::Replace => first_of_two(values),
        Builtin::Swap => match both(values) {
            Some(_) => Answer::Ok(PValue::tuple(List::new(alloc))),
            None => Answer::Stuck,
        },
    }
}

/// What a place that was lent to a built-in function then holds, by the place's region.
fn backward(function: Builtin, region: RegionId, values: List<PValue>) -> Answer
    ensures { result ≡ spec.backward function region.0 values }
{
    match (function, region.0) {
        (Builtin::Replace, 0) => second_of_two(values),
        (Builtin::Swap, 0) => second_of_two(values),
        (Builtin::Swap, 1) => first_of_two(values),
        _ => Answer::Stuck,
    }
}

fn first_of_two(values: List<PValue>) -> Answer
    ensures { result ≡ spec.first_of_two values }
{
    match both(values) {
        Some((first, _)) => Answer::Ok(first),
        None => Answer::Stuck,
    }
}

fn second_of_two(values: List<PValue>) -> Answer
    ensures { result ≡ spec.second_of_two values }
{
    match both(values) {
        Some((_, second)) => Answer::Ok(second),
        None => Answer::Stuck,
    }
}
