//! Reads the texts of the printed language (docs/TEXT.md, "Reading").
#![tactic(auto)]

mod places;
mod read;

pub use read::{LeanFault, read_defs};
