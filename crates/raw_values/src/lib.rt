//! What the parts of a printed text are read as, before names are looked up, and how such values are
//! taken off a stack.
#![tactic(auto)]

pub mod front_list;
pub mod rests;
pub mod taking;
mod value;

pub use value::{Stack, Value};
