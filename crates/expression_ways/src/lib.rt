//! How expressions, blocks and paths of a source are read (docs/LANGUAGE.md, "Grammar").
#![tactic(auto)]

mod assertion;
pub mod blocks;
pub mod expressions;
pub mod operators;
pub mod path_ways;
