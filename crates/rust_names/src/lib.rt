//! Names: what each use in a program means (LANGUAGE.md, "Names"). `resolve` gives a program with
//! each use as the number of what it names, or the first fault of its names.
#![tactic(auto)]

mod fault;
mod items;
mod resolving;

pub use fault::NameFault;
pub use resolving::resolve;
