//! What a program of sums means, apart from the code that runs it: its typing, the machine with memory,
//! and a call. The definitions stand in `specs/`.
#![tactic(auto)]

mod outcome;

pub use outcome::Outcome;
