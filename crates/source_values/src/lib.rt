//! The values of the parts of a source, and how they are taken off a stack.
#![tactic(auto)]

pub mod taking;
mod value;

pub use taking::{held_items, held_writtens};
pub use value::{Stack, Value};
