//! What calls on files handed out, for clauses alone: it has no bytes, and its methods do nothing
//! when the program runs.
ghost use Rattle.std.specs.Prelude.{◌≡◌, List, [], ◌∷◌, ◌++◌};
ghost use Rattle.std.specs.Borrow.{ftrue};
ghost use Rattle.aen_io.specs.Handed.{Handed, coded_handeds};

use std::marker::{Model, PhantomData};

/// What the calls so far handed out.
#[derive(Drop)]
pub struct ReadLog {
    marker: PhantomData<u8>,
    pub ghost handed: { List Handed } by { coded_handeds },
}

impl Model for ReadLog {
    ghost also_owns = { λ _. ftrue };
}

impl ReadLog {
    /// Nothing was handed out yet.
    pub fn new() -> ReadLog
        ensures { result.handed ≡ [] }
    {
        ReadLog {
            marker: PhantomData,
        }
    }

    /// Adds that a call handed out these bytes of the file `name`, from the byte `at` on.
    pub fn note(&mut self, _name: &[u8], _at: u64, _bytes: &[u8])
        ensures { self.new.handed ≡ self.old.handed ++ record { name = _name.now; at = _at; bytes = _bytes.now } ∷ [] }
    {}
}
