//! What a source's tokens are read as (docs/LANGUAGE.md, "Grammar"): the definitions, the values of parts
//! that are no trees, and what all ways of reading need.
#![tactic(auto)]

pub mod clauses;
pub mod constructors;
pub mod front_list;
pub mod generics;
pub mod operations;
pub mod path_nodes;
pub mod paths;
pub mod says;
pub mod spanned;
pub mod spans;
