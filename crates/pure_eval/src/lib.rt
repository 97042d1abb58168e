//! Computes the answer of a definition of a printed text on its arguments (docs/TEXT.md, "Meaning").
//! Pending work stands in a vector, so that neither the fuel, nor the length of a definition's code,
//! nor the depth of a value takes stack; only the depth of a term does.
#![tactic(auto)]

mod arms;
mod computation;
mod copies;
mod evaluation;
mod frames;
mod operands;
mod primitives;
mod terms;
mod turns;
mod variables;

pub use evaluation::eval;
pub use text_meaning::Answer;
