//! From a program with names resolved to its declared types and the signatures of its functions
//! (LANGUAGE.md, "Types" and "Regions").
#![tactic(auto)]

mod bodies;
mod declarations;
mod declaring;
mod fault;
mod references;
mod signatures;
mod sizes;
mod standing;
mod types;

pub use bodies::{body_arguments, body_type};
pub use declarations::decls;
pub use declaring::Declaring;
pub use fault::RegionFault;
pub use signatures::regions;
pub use sizes::is_large;
