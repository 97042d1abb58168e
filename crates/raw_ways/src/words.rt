//! What words stand for that have a class of their own (docs/TEXT.md, "Words", "Primitives").

ghost use Rattle.std.specs.Prelude.{◌≡◌};
ghost use Rattle.raw_ways.specs.Words as spec;

use aen_base::{BinOp, CmpOp, IntTy};
use pure_ast::{BoolOp, Primitive};
use text_table::Class;

/// The integer type that a word of this class is.
pub(crate) fn int_of(class: Class) -> IntTy
    ensures { result ≡ spec.int_of class }
{
    match class {
        Class::U8 => IntTy::U8,
        Class::U16 => IntTy::U16,
        Class::U32 => IntTy::U32,
        Class::U64 => IntTy::U64,
        Class::U128 => IntTy::U128,
        Class::Usize => IntTy::Usize,
        Class::I8 => IntTy::I8,
        Class::I16 => IntTy::I16,
        Class::I32 => IntTy::I32,
        Class::I64 => IntTy::I64,
        Class::I128 => IntTy::I128,
        _ => IntTy::Isize,
    }
}

/// Which of `true` and `false` a word of this class is.
pub(crate) fn is_true(class: Class) -> bool
    ensures { result ≡ spec.is_true class }
{
    match class {
        Class::True => true,
        _ => false,
    }
}

/// The primitive of an integer type by the class of its operator.
pub(crate) fn int_primitive(ty: IntTy, class: Class) -> Primitive
    ensures { result ≡ spec.int_primitive ty class }
{
    match class {
        Class::Add => Primitive::Arith(ty, BinOp::Add),
        Class::Sub => Primitive::Arith(ty, BinOp::Sub),
        Class::Mul => Primitive::Arith(ty, BinOp::Mul),
        Class::Div => Primitive::Arith(ty, BinOp::Div),
        Class::Rem => Primitive::Arith(ty, BinOp::Rem),
        Class::Shl => Primitive::Arith(ty, BinOp::Shl),
        Class::Shr => Primitive::Arith(ty, BinOp::Shr),
        Class::And => Primitive::Arith(ty, BinOp::And),
        Class::Or => Primitive::Arith(ty, BinOp::Or),
        Class::Xor => Primitive::Arith(ty, BinOp::Xor),
        Class::Neg => Primitive::Neg(ty),
        Class::Eq => Primitive::Compare(ty, CmpOp::Eq),
        Class::Ne => Primitive::Compare(ty, CmpOp::Ne),
        Class::Lt => Primitive::Compare(ty, CmpOp::Lt),
        Class::Le => Primitive::Compare(ty, CmpOp::Le),
        Class::Gt => Primitive::Compare(ty, CmpOp::Gt),
        Class::Ge => Primitive::Compare(ty, CmpOp::Ge),
        _ => Primitive::Not(ty),
    }
}

/// The operator of bools of this class.
fn bool_operator(class: Class) -> BoolOp
    ensures { result ≡ spec.bool_operator class }
{
    match class {
        Class::Eq => BoolOp::Eq,
        Class::Ne => BoolOp::Ne,
        Class::And => BoolOp::And,
        Class::Or => BoolOp::Or,
        Class::Xor => BoolOp::Xor,
        _ => BoolOp::Not,
    }
}

/// The primitive of bools by the class of its operator.
pub(crate) fn bool_primitive(class: Class) -> Primitive
    ensures { result ≡ spec.bool_primitive class }
{
    Primitive::Bools(bool_operator(class))
}
