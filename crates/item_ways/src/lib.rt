//! How types, items and patterns of a source are read (docs/LANGUAGE.md, "Grammar").
#![tactic(auto)]

pub mod items;
pub mod patterns;
pub mod types;
