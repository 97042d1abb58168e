//! What breaks no rule is well-formed: types, atoms, code and texts as they are spelled, where no rule
//! beside the grammar is broken, stand for well-formed ones (docs/TEXT.md, "Faults", "Well-formed
//! definitions").
#![tactic(auto)]

mod laws;

pub use laws::{atoms_are_formed, codes_are_formed, texts_are_formed, types_are_formed};
