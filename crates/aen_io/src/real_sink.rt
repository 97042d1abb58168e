ghost use Rattle.std.specs.Prelude.{◌≡◌, []};

use crate::{Failed, Sink, WriteLog};
use std::io::Write;

/// A writer of the system as a sink, as standard output. Each error of the
/// writer, and each write that takes nothing of a piece that isn't empty, is a fault that is
/// counted. The writer is to keep no bytes back, since it isn't flushed.
#[derive(Drop)]
pub struct RealSink<W> {
    writer: W,
    faults: u64,
    log: WriteLog,
}

impl<W: Write> RealSink<W> {
    /// A sink that writes to this writer. It writes nothing yet.
    pub fn new(writer: W) -> RealSink<W>
        ensures faults { result.faults ≡ 0 }
        ensures taken { result.log.taken ≡ [] }
    {
        RealSink {
            writer,
            faults: 0,
            log: WriteLog::new(),
        }
    }
}

impl<W: Write> Sink for RealSink<W> {
    ghost taken = { λ s. s.log.taken };

    ghost faults = { λ s. s.faults };

    fn write(&mut self, piece: &[u8]) -> Result<usize, Failed> {
        match self.writer.write(piece) {
            Ok(n) => {
                if n == 0 && !piece.is_empty() {
                    self.faults = self.faults.saturating_add(1);
                }
                self.log.note(&piece[..n]);
                Ok(n)
            }
            Err(_) => {
                self.faults = self.faults.saturating_add(1);
                Err(Failed)
            }
        }
    }
}

#[cfg(test)]
mod tests {
    use super::*;
    use crate::write_all;

    #[test]
    fn hands_the_bytes_on(rt: HostRuntime) {
        let mut sink = RealSink::new(Vec::new(rt.alloc()));
        let answer = write_all(&mut sink, b"two lines\nof text\n");
        assert!(rt; answer.is_ok());
        assert!(rt; sink.writer.as_slice() == b"two lines\nof text\n".as_slice());
        assert_eq!(rt; sink.faults, 0);
    }
}
