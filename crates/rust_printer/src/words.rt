//! Marks and words as they are printed.
ghost use Rattle.std.specs.Prelude.{◌≡◌};
ghost use Rattle.rust_printer.specs.ShownWords as spec;

use aen_base::{BinOp, CmpOp, IntTy};

/// An integer type's word.
pub(crate) fn int_word(ty: IntTy) -> &'static str
    ensures { result.now ≡ spec.int_word ty }
{
    match ty {
        IntTy::U8 => "u8",
        IntTy::U16 => "u16",
        IntTy::U32 => "u32",
        IntTy::U64 => "u64",
        IntTy::U128 => "u128",
        IntTy::Usize => "usize",
        IntTy::I8 => "i8",
        IntTy::I16 => "i16",
        IntTy::I32 => "i32",
        IntTy::I64 => "i64",
        IntTy::I128 => "i128",
        IntTy::Isize => "isize",
    }
}

/// An operator's mark.
pub(crate) fn bin_mark(op: BinOp) -> &'static str
    ensures { result.now ≡ spec.bin_mark op }
{
    match op {
        BinOp::Add => "+ ",
        BinOp::Sub => "- ",
        BinOp::Mul => "* ",
        BinOp::Div => "/ ",
        BinOp::Rem => "% ",
        BinOp::Shl => "<< ",
        BinOp::Shr => ">> ",
        BinOp::And => "& ",
        BinOp::Or => "| ",
        BinOp::Xor => "^ ",
    }
}

/// The mark of an operator with `=`.
pub(crate) fn update_mark(op: BinOp) -> &'static str
    ensures { result.now ≡ spec.update_mark op }
{
    match op {
        BinOp::Add => "+= ",
        BinOp::Sub => "-= ",
        BinOp::Mul => "*= ",
        BinOp::Div => "/= ",
        BinOp::Rem => "%= ",
        BinOp::Shl => "<<= ",
        BinOp::Shr => ">>= ",
        BinOp::And => "&= ",
        BinOp::Or => "|= ",
        BinOp::Xor => "^= ",
    }
}

/// A comparison's mark.
pub(crate) fn cmp_mark(op: CmpOp) -> &'static str
    ensures { result.now ≡ spec.cmp_mark op }
{
    match op {
        CmpOp::Eq => "== ",
        CmpOp::Ne => "!= ",
        CmpOp::Lt => "< ",
        CmpOp::Le => "<= ",
        CmpOp::Gt => "> ",
        CmpOp::Ge => ">= ",
    }
}

pub(crate) fn truth_word(value: bool) -> &'static str
    ensures { result.now ≡ spec.truth_text value }
{
    if value { "true " } else { "false " }
}

/// `mut`, or nothing.
pub(crate) fn mut_word(mutable: bool) -> &'static str
    ensures { result.now ≡ spec.mut_text mutable }
{
    if mutable { "mut " } else { "" }
}
