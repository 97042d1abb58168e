ghost use Rattle.std.specs.Prelude.{◌≡◌, ◌≤◌, ℕ, List, length, take, IfOk, OnErr};
ghost use Rattle.aen_io.specs.Handed.{Handed, HandsOut};
ghost use Rattle.aen_io.specs.Told.{Told, OfContent, IsPart, FaultAt};

use thiserror::Error;

/// A call on the outside failed.
#[derive(Clone, Copy, Debug, PartialEq, Eq, Error)]
#[error("reading or writing failed")]
pub struct Failed;

/// Files that can be read. Their content may be told; no call changes it. What the calls hand out
/// is recorded, for clauses alone. Faults are counted, as far as 64 bits can count.
pub trait Files {
    /// The content of each name, where it is told.
    ghost told: { Self → Told };

    /// The number of faults so far.
    ghost faults: { Self → ℕ };

    /// What the calls so far handed out, one entry for each that was answered `Ok`.
    ghost handed: { Self → List Handed };

    /// Reads bytes of the file `name`, from the byte `at` on, into the front of `buf`, and answers
    /// how many. For a buffer that isn't empty, 0 is the file's end. What was read is recorded.
    ///
    /// `Failed` comes only where a fault was counted in this call, or where content is told and
    /// the name isn't there. A name that is told not to be there is always answered so.
    fn read_at(&mut self, name: &str, at: u64, buf: &mut [u8]) -> Result<usize, Failed>
        ensures kept { told self.new ≡ told self.old }
        ensures later { faults self.old ≤ faults self.new }
        ensures bound { IfOk result (λ n. n ≤ length buf.new) }
        ensures bytes { IfOk result (λ n. OfContent (told self.old) name.now (λ c. IsPart c at n buf.new)) }
        ensures recorded { IfOk result (λ n. HandsOut (handed self.old) (handed self.new) name.now at (take n buf.new)) }
        ensures nothing { OnErr result (handed self.new ≡ handed self.old) }
        ensures failed { OnErr result (FaultAt (told self.old) name.now (faults self.old) (faults self.new)) };
}
