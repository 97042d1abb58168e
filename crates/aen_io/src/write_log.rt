//! What calls on a sink took, for clauses alone: it has no bytes, and its methods do nothing when
//! the program runs.
ghost use Rattle.std.specs.Prelude.{◌≡◌, ℕ, List, [], ◌++◌};
ghost use Rattle.std.specs.Borrow.{ftrue};

use std::marker::{Model, PhantomData};

/// The bytes that the calls so far took.
#[derive(Drop)]
pub struct WriteLog {
    marker: PhantomData<u8>,
    pub ghost taken: { List ℕ },
}

impl Model for WriteLog {
    ghost also_owns = { λ _. ftrue };
}

impl WriteLog {
    /// Nothing was taken yet.
    pub fn new() -> WriteLog
        ensures { result.taken ≡ [] }
    {
        WriteLog {
            marker: PhantomData,
        }
    }

    /// Adds that a call took these bytes.
    pub fn note(&mut self, _bytes: &[u8])
        ensures { self.new.taken ≡ self.old.taken ++ _bytes.now }
    {}
}
