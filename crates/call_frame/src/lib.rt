//! What a call from outside begins and ends with: the function that a name stands for, the
//! arguments that words write, and the text of a value.
#![tactic(auto)]

mod naming;
mod printing;
mod words;

pub use naming::function_named;
pub use printing::print_value;
pub use source_meaning::Outcome;
pub use words::{ArgFault, arguments};
