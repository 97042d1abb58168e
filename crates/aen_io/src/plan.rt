ghost use Rattle.std.specs.Prelude.{◌≡◌, ◌≤◌, ◌||◌};
ghost use Rattle.aen_io.specs.InMemory.{is_due, no_calls, after_call};

use aen_base::List;

/// Which calls are to fail, by their numbers from 0, and the counts of calls and faults so far.
/// Both counts stop at 2^64 - 1.
#[derive(Debug, Drop)]
pub struct Plan {
    fail: List<u64>,
    calls: u64,
    faults: u64,
}

impl Plan {
    /// The plan before any call.
    pub fn new(fail: List<u64>) -> Plan
        ensures { result ≡ no_calls fail }
    {
        Plan {
            fail,
            calls: 0,
            faults: 0,
        }
    }

    /// Counts one more call, and answers whether it fails: because it is due, or for a reason of
    /// its own. Then a fault is counted.
    pub fn call(&mut self, own: bool) -> bool
        ensures answer { result ≡ (is_due self.old || own) }
        ensures after { self.new ≡ after_call self.old own }
        ensures later { self.old.faults ≤ self.new.faults }
    {
        let fails = self.is_due() || own;
        self.calls = self.calls.saturating_add(1);
        if fails {
            self.faults = self.faults.saturating_add(1);
        }
        fails
    }

    fn is_due(&self) -> bool
        ensures { result ≡ is_due self.now }
    {
        self.fail.as_slice().iter().any(|k| *k == self.calls)
    }
}
