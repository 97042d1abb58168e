//! From a printed text as it is spelled to its definitions (docs/TEXT.md, "Faults", "Well-formed
//! definitions"): names are looked up, numbers valued, and the first place is told at which a rule
//! beside the grammar is broken.
#![tactic(auto)]

mod atoms;
mod codes;
mod computations;
mod declarations;
mod definitions;
mod fault;
mod lists;
mod new_names;
mod rules;
mod types;

pub use atoms::atom_of;
pub use definitions::definitions_of;
pub use fault::SettleFault;
pub use types::type_of;
