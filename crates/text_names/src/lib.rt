//! What the names and numbers of a text as it is spelled stand for, and the rule beside the grammar
//! that each keeps, one node a call (docs/TEXT.md, "Names", "Faults").
#![tactic(auto)]

mod by_kind;
mod by_name;
mod definition_names;
mod digits;
mod ends;
mod kind_key;
mod kinds;
mod name_rules;
mod named;
mod names;
mod new_names;
mod numbered;
mod outlining;
mod rules;
mod tables;
mod type_table;

pub use ends::variant_end;
pub use kinds::Kinds;
pub use name_rules::{TypeName, called, constructor, type_name};
pub use names::Names;
pub use new_names::{new_definition, new_member, new_parameter, new_type};
pub use outlining::outline_of;
pub use rules::{number, operation, parameter, variable};
pub use tables::Tables;
