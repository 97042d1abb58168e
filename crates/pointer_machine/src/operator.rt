ghost use Rattle.pointer_machine.specs.Given.{Gives};
ghost use Rattle.pointer_machine.specs.Values as spec;

use crate::halt::{Halt, Stop};
use aen_base::{BinOp, Num, Span, checked};

/// An operator on two numbers of one type.
pub(crate) fn operate(span: Span, op: BinOp, left: Num, right: Num) -> Result<Num, Stop>
    ensures { Gives (spec.operate span op left right) result }
{
    if left.ty() != right.ty() {
        return Err(Stop::Halted(Halt::Stuck(span)));
    }
    match checked(op, left, right) {
        Ok(number) => Ok(number),
        Err(kind) => Err(Stop::Halted(Halt::Panic(kind))),
    }
}
