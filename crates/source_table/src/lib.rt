//! The grammar of sources as a table that fits (docs/LANGUAGE.md, "Grammar").
#![tactic(auto)]

mod classes;
mod grammar;
mod table;
mod takes;

pub use grammar::SourceGrammar;
