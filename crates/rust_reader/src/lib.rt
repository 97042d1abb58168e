//! From the tokens of a source to its program (docs/LANGUAGE.md, "Grammar").
#![tactic(auto)]

mod call_name;
mod fault;
mod program;
mod read_source;

pub use call_name::read_call_name;
pub use fault::ReadFault;
pub use read_source::read;
