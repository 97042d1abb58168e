//! Whether patterns cover a type (LANGUAGE.md, "Coverage").
#![tactic(auto)]

mod cells;
mod coverage;
mod covering;
mod heads;
mod nesting;
mod numbers;
mod rows;
mod types;
mod void;

pub use coverage::is_covered;
