//! What a program declares twice: `twice_in_items` gives the first place in source order that declares
//! what an earlier one declares (LANGUAGE.md, "Names").
#![tactic(auto)]

mod bindings;
mod entry;
mod repeated;
mod seen;
mod twice;
mod twice_bodies;

pub use entry::{Entry, Kind};
pub use twice::twice_in_items;
