//! The words of a call (docs/TEXT.md, "Grammar", "Names"): values and types that words write, the
//! definition that a printed name stands for, and values as they are printed.
#![tactic(auto)]

mod arguments;
mod closed_values;
mod heads;
mod naming_words;
mod putting_in;
mod typing;
mod values;
mod word_reading;

pub use arguments::{ArgFault, read_args};
pub use naming_words::def_named;
pub use values::print_atom;
