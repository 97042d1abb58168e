//! Runs a function of a program at a bound on nested calls. Memory is taken for the values of the
//! calls that have begun and not returned.
#![tactic(auto)]

mod calls;
mod halt;
mod operator;
mod running;
mod spine;

pub use running::run;
