//! Reads the lexemes of a printed text as a tree of what is spelled (docs/TEXT.md, "Grammar").
#![tactic(auto)]

mod building;
mod reader;
mod reading;

pub use reader::TextReader;
pub use reading::{read_atom, read_text, read_type};
