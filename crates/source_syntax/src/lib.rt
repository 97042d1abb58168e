//! Whether the tokens of a source keep its grammar and the limits on brackets, depth and `else`, and
//! where they first do not (docs/LANGUAGE.md, "Grammar", "Limits").
#![tactic(auto)]

mod effect;
mod levels;
mod lexemes;
mod limits;
mod refusal;
mod syntax;

pub use effect::Effect;
pub use lexemes::lexemes_of;
pub use refusal::Refusal;
pub use syntax::{fault_at, first_excluded, passed_limit};
