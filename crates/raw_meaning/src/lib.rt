//! What a text as it is spelled declares, which rules beside the grammar it keeps, and which
//! definitions it stands for (docs/TEXT.md, "Faults", "Well-formed definitions"). Definitions of
//! `specs/`, which the reader meets.
#![tactic(auto)]

mod outline;

pub use outline::{DefinitionHead, Outline, TypeHead, VariantHead};
