//! What productions of blocks, expressions, paths and lists build of the values of their symbols.
#![tactic(auto)]

pub mod blocks;
pub mod expressions;
pub mod lists;
pub mod paths;
