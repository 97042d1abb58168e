//! The operators at the edges of each type, against what Rust computes.

ghost use Rattle.std.specs.Prelude.{◌≡◌, IfSome};

use crate::edge_values::EDGE_VALUES;
use aen_base::{BinOp, CmpOp, IntTy, Num, PanicKind, cast, checked, compare, invert, negate, num};

fn type_named(name: &str) -> Option<IntTy> {
    match name {
        "U8" => Some(IntTy::U8),
        "U16" => Some(IntTy::U16),
        "U32" => Some(IntTy::U32),
        "U64" => Some(IntTy::U64),
        "U128" => Some(IntTy::U128),
        "Usize" => Some(IntTy::Usize),
        "I8" => Some(IntTy::I8),
        "I16" => Some(IntTy::I16),
        "I32" => Some(IntTy::I32),
        "I64" => Some(IntTy::I64),
        "I128" => Some(IntTy::I128),
        "Isize" => Some(IntTy::Isize),
        _ => None,
    }
}

fn operator_named(name: &str) -> Option<BinOp> {
    match name {
        "Add" => Some(BinOp::Add),
        "Sub" => Some(BinOp::Sub),
        "Mul" => Some(BinOp::Mul),
        "Div" => Some(BinOp::Div),
        "Rem" => Some(BinOp::Rem),
        "Shl" => Some(BinOp::Shl),
        "Shr" => Some(BinOp::Shr),
        "And" => Some(BinOp::And),
        "Or" => Some(BinOp::Or),
        "Xor" => Some(BinOp::Xor),
        _ => None,
    }
}

fn comparison_named(name: &str) -> Option<CmpOp> {
    match name {
        "Eq" => Some(CmpOp::Eq),
        "Ne" => Some(CmpOp::Ne),
        "Lt" => Some(CmpOp::Lt),
        "Le" => Some(CmpOp::Le),
        "Gt" => Some(CmpOp::Gt),
        "Ge" => Some(CmpOp::Ge),
        _ => None,
    }
}

fn number(ty: IntTy, word: &str) -> Option<Num>
    ensures { IfSome result (λ n. n.ty ≡ ty) }
{
    let (neg, digits) = match word.strip_prefix("-") {
        Some(digits) => (true, digits),
        None => (false, word),
    };
    let mag = digits.parse::<u128>().ok()?;
    num(ty, neg, mag)
}

/// Whether the answer is the one that a row has.
fn is_answer(answer: Result<Num, PanicKind>, ty: IntTy, word: &str) -> bool {
    match answer {
        Ok(value) => number(ty, word) == Some(value),
        Err(PanicKind::Overflow) => word == "overflow",
        Err(PanicKind::DivideByZero) => word == "zero",
        Err(PanicKind::Explicit) => false,
    }
}

/// Whether a row holds; None where it isn't a row of this operator.
fn holds(op: &str, ty: IntTy, left: &str, right: &str, want: &str) -> Option<bool> {
    let a = number(ty, left)?;
    if op == "Neg" {
        return Some(is_answer(negate(a), ty, want));
    }
    if op == "Not" {
        return Some(is_answer(Ok(invert(a)), ty, want));
    }
    if op == "As" {
        let to = type_named(right)?;
        return Some(is_answer(Ok(cast(a, to)), to, want));
    }
    let b = number(ty, right)?;
    if let Some(comparison) = comparison_named(op) {
        return Some(compare(comparison, a, b) == (want == "true"));
    }
    let operator = operator_named(op)?;
    Some(is_answer(checked(operator, a, b), ty, want))
}

/// How many of a line's rows hold; None at the first row that doesn't.
fn count(line: &str) -> Option<u32> {
    let (op, rest) = line.split_once(" ")?;
    let (name, rows) = rest.split_once(" ")?;
    let ty = type_named(name)?;
    let mut rows_held = 0u32;
    for row in rows.split("; ") {
        let (left, rest) = row.split_once(" ")?;
        let (right, want) = rest.split_once(" ")?;
        if holds(op, ty, left, right, want) != Some(true) {
            return None;
        }
        rows_held = rows_held.checked_add(1)?;
    }
    Some(rows_held)
}

#[test]
fn agree_with_rust(rt: HostRuntime) {
    let mut rows = 0u32;
    for line in EDGE_VALUES.lines() {
        let held = count(line).expect(&rt, line);
        rows = rows.checked_add(held).expect(&rt, "few rows");
    }
    assert_eq!(rt; rows, 924);
}
