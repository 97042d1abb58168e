//! Reads tokens by a grammar that is given as a table of productions; knows no language.
#![tactic(auto)]

mod builds;
mod choice;
mod coming;
mod grammar;
mod item;
mod reader;
mod symbol;
mod take;
mod turned;

pub use builds::Builds;
pub use grammar::Grammar;
pub use item::Item;
pub use reader::read;
pub use symbol::{Production, Symbol};
pub use take::Take;
