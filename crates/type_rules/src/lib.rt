//! What typing means (LANGUAGE.md, "Types" and the sections after it). The definitions stand in
//! `specs/`: `Programs` has the answer for a whole program, `Declarations` and `Signatures` those for
//! its parts before the bodies, and `Fits` says of a spelled program that its types fit. Here are the
//! types that they are written with.
#![tactic(auto)]

mod fault;
pub mod forms;
mod state;

pub use fault::KindOfFault;
pub use state::{Loop, Scope, State};
