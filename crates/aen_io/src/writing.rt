ghost use Rattle.std.specs.Prelude.{◌≤◌, OnOk, OnErr};
ghost use Rattle.aen_io.specs.Faults.{Rose};
ghost use Rattle.aen_io.specs.Written.{WritesAll, WritesPart};

use crate::{Failed, Sink};

/// Writes all of `bytes`: the sink takes exactly them. `Failed` comes only where a fault was counted in this call; then a
/// prefix of `bytes` was taken. It takes no memory.
pub fn write_all<K: Sink>(out: &mut K, bytes: &[u8]) -> Result<(), Failed>
    ensures later { K.faults out.old ≤ K.faults out.new }
    ensures all { OnOk result (WritesAll (K.taken out.old) (K.taken out.new) bytes.now) }
    ensures part { OnErr result (WritesPart (K.taken out.old) (K.taken out.new) bytes.now) }
    ensures failed { OnErr result (Rose (K.faults out.old) (K.faults out.new)) }
{
    let mut done = 0;
    while done < bytes.len() {
        let taken = out.write(&bytes[done..])?;
        if taken == 0 {
            return Err(Failed);
        }
        done += taken;
    }
    Ok(())
}

#[cfg(test)]
mod tests {
    use super::*;
    use crate::MemSink;
    use aen_base::{List, NoMem};

    #[test]
    fn writes_a_prefix_up_to_a_fault(rt: HostRuntime) -> Result<(), NoMem> {
        let text = b"import AenPrelude";
        let mut whole = MemSink::new(rt.alloc(), List::new(rt.alloc()), 10, 17)?;
        assert!(rt; write_all(&mut whole, text).is_ok());
        assert!(rt; whole.bytes() == text.as_slice());
        let second = List::from_slice(rt.alloc(), &[1])?;
        let mut part = MemSink::new(rt.alloc(), second, 10, 17)?;
        assert!(rt; write_all(&mut part, text).is_err());
        assert!(rt; part.bytes() == b"import Aen".as_slice());
        let mut full = MemSink::new(rt.alloc(), List::new(rt.alloc()), 10, 6)?;
        assert!(rt; write_all(&mut full, text).is_err());
        assert!(rt; full.bytes() == b"import".as_slice());
        Ok(())
    }
}
