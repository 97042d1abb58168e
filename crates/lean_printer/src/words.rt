//! The names of types and operators in a text.
ghost use Rattle.std.specs.Prelude.{◌≡◌};
ghost use Rattle.text_meaning.specs.Words as spec;

use aen_base::{BinOp, CmpOp, IntTy};
use pure_ast::BoolOp;

/// An integer type's name.
pub(crate) fn int_word(ty: IntTy) -> &'static str
    ensures { result.now ≡ spec.int_word ty }
{
    match ty {
        IntTy::U8 => "U8",
        IntTy::U16 => "U16",
        IntTy::U32 => "U32",
        IntTy::U64 => "U64",
        IntTy::U128 => "U128",
        IntTy::Usize => "Usize",
        IntTy::I8 => "I8",
        IntTy::I16 => "I16",
        IntTy::I32 => "I32",
        IntTy::I64 => "I64",
        IntTy::I128 => "I128",
        IntTy::Isize => "Isize",
    }
}

/// An operator's name.
pub(crate) fn arith_word(op: BinOp) -> &'static str
    ensures { result.now ≡ spec.arith_word op }
{
    match op {
        BinOp::Add => "add",
        BinOp::Sub => "sub",
        BinOp::Mul => "mul",
        BinOp::Div => "div",
        BinOp::Rem => "rem",
        BinOp::Shl => "shl",
        BinOp::Shr => "shr",
        BinOp::And => "and",
        BinOp::Or => "or",
        BinOp::Xor => "xor",
    }
}

/// A comparison's name.
pub(crate) fn compare_word(op: CmpOp) -> &'static str
    ensures { result.now ≡ spec.compare_word op }
{
    match op {
        CmpOp::Eq => "eq",
        CmpOp::Ne => "ne",
        CmpOp::Lt => "lt",
        CmpOp::Le => "le",
        CmpOp::Gt => "gt",
        CmpOp::Ge => "ge",
    }
}

/// The name of an operator on bools.
pub(crate) fn bool_word(op: BoolOp) -> &'static str
    ensures { result.now ≡ spec.bool_word op }
{
    match op {
        BoolOp::Eq => "eq",
        BoolOp::Ne => "ne",
        BoolOp::And => "and",
        BoolOp::Or => "or",
        BoolOp::Xor => "xor",
        BoolOp::Not => "not",
    }
}
