ghost use Rattle.std.specs.Prelude.{◌≡◌};
ghost use Rattle.aen_base.specs.Arithmetic.{compared};

use crate::{CmpOp, Num};

/// Compares two numbers of one type as whole numbers.
pub fn compare(op: CmpOp, a: Num, b: Num) -> bool
    requires { a.ty ≡ b.ty }
    ensures { result ≡ compared op a.value b.value }
{
    let left = a.whole();
    let right = b.whole();
    match op {
        CmpOp::Eq => left.is_same(right),
        CmpOp::Ne => !left.is_same(right),
        CmpOp::Lt => left.is_less(right),
        CmpOp::Le => !right.is_less(left),
        CmpOp::Gt => right.is_less(left),
        CmpOp::Ge => !left.is_less(right),
    }
}
