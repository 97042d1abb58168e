//! The lexemes of a printed text with their classes, and how many of their brackets are open at once
//! (docs/TEXT.md, "Tokens", "Words", "Limits").
#![tactic(auto)]

mod brackets;
mod classing;

pub use brackets::has_few_brackets;
pub use classing::{class_of, lexemes_of};
