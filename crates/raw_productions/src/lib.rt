//! What productions of a printed text build of the values of their symbols on a stack.
#![tactic(auto)]

pub mod atoms;
pub mod code;
pub mod declarations;
pub mod definitions;
pub mod primitives;
pub mod types;
