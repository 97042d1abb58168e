//! What productions of items, types and patterns build of the values of their symbols.
#![tactic(auto)]

pub mod fields;
pub mod generics;
pub mod items;
pub mod patterns;
pub mod types;
