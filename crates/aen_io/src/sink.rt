ghost use Rattle.std.specs.Prelude.{◌≡◌, ◌<◌, ◌≤◌, ℕ, List, [], length, take, IfOk, OnErr};
ghost use Rattle.aen_io.specs.Faults.{Rose};
ghost use Rattle.aen_io.specs.Written.{WritesAll};

use crate::Failed;

/// A place that takes bytes one after another. The bytes that it took are recorded, for clauses
/// alone. Faults are counted, as far as 64 bits can count.
pub trait Sink {
    /// The bytes that the calls so far took.
    ghost taken: { Self → List ℕ };

    /// The number of faults so far.
    ghost faults: { Self → ℕ };

    /// Takes bytes from the front of `piece`, and answers how many.
    ///
    /// `Failed`, and 0 for a piece that isn't empty, come only where a fault was counted in this
    /// call; then nothing was taken.
    fn write(&mut self, piece: &[u8]) -> Result<usize, Failed>
        ensures later { faults self.old ≤ faults self.new }
        ensures bound { IfOk result (λ n. n ≤ length piece.now) }
        ensures takes { IfOk result (λ n. WritesAll (taken self.old) (taken self.new) (take n piece.now)) }
        ensures stuck { IfOk result (λ n. n ≡ 0 → 0 < length piece.now → Rose (faults self.old) (faults self.new)) }
        ensures nothing { OnErr result (WritesAll (taken self.old) (taken self.new) []) }
        ensures failed { OnErr result (Rose (faults self.old) (faults self.new)) };
}
