//! Patterns that typing gives suit the types that they meet, as coverage asks of them (LANGUAGE.md,
//! "Patterns", "Coverage"). The lemmas stand in `specs/Suiting.antt` and `specs/Arms.antt`.
#![tactic(auto)]

mod laws;

pub use laws::{arms_suit, pattern_suits};
