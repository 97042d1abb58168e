ghost use Rattle.std.specs.Prelude.{◌≡◌, Some, IfOk};
ghost use Rattle.source_meaning.specs.Calling.{IsU32Value};
ghost use Rattle.call_frame.specs.Written as spec;

use aen_base::{NoMem, Text};
use pure_ast::{PValue, PValueNode};
use std::alloc::Global;

/// The text of a value of type `u32`: its decimal digits, which write the value again. The only
/// error is want of memory.
pub fn print_value(alloc: Global, v: &PValue) -> Result<Text, NoMem>
    requires { IsU32Value v.now }
    ensures bytes { IfOk result (λ t. t ≡ spec.written v.now) }
    ensures read_back { IfOk result (λ t. spec.word_value t ≡ Some v.now) }
{
    match &v.node {
        PValueNode::Num(number) => {
            let magnitude = number.magnitude();
            Ok(Text::new(format!(in alloc; "{magnitude}")?))
        }
        PValueNode::Bool(_) | PValueNode::Tuple(_) | PValueNode::Ctor(_, _) => unreachable!(),
    }
}

#[cfg(test)]
mod tests {
    use super::*;
    use crate::words::word_value;

    #[test]
    fn prints_digits(rt: HostRuntime) -> Result<(), NoMem> {
        let Some(value) = word_value(b"0004294967295") else {
            return Err(NoMem);
        };
        let text = print_value(rt.alloc(), &value)?;
        assert!(rt; text.as_str() == "4294967295");
        Ok(())
    }
}
