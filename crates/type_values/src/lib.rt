//! What typing asks of types, places and values, without the recursion over expressions (LANGUAGE.md,
//! "Types" and the sections after it): what is expected, literals, fields, what is written out between
//! places and values, types in bodies, the variables and loops of a function. The definitions stand in
//! `type_rules`.
#![tactic(auto)]

pub mod access;
pub mod expecting;
mod fault;
pub mod fields;
pub mod literals;
pub mod operators;
pub mod places;
pub mod states;
pub mod type_facts;
pub mod values;
pub mod written;
pub mod written_out;

pub use fault::TypeFault;
