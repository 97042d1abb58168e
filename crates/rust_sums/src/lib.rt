//! Which programs with names resolved are programs of sums, and which these are (docs/LANGUAGE.md,
//! "Sums").
#![tactic(auto)]

mod expressions;
mod fault;
mod functions;
mod statements;
mod types;

pub use fault::SumsFault;
pub use functions::sums_of;
