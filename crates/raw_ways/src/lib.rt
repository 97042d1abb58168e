//! What productions of a printed text make of the values of their symbols (docs/TEXT.md, "Grammar").
#![tactic(auto)]

pub mod atoms;
pub mod code;
pub mod declarations;
pub mod definitions;
pub mod primitives;
mod spelling;
pub mod types;
mod words;

pub use spelling::spelled;
