//! Calls and constructors, without the recursion over expressions (LANGUAGE.md, "Calls"): type
//! arguments that are found, arguments, and what is decided after them. The definitions stand in
//! `type_rules`.
#![tactic(auto)]

pub mod arguments;
pub mod callees;
pub mod calls;
pub mod finds;
pub mod matching;
pub mod reaching;
