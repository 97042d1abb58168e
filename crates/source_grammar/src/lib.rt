//! The grammar of sources (docs/LANGUAGE.md, "Grammar"): its symbols, and its productions as definitions.
#![tactic(auto)]

mod class;
mod lexeme;
mod part;
mod spelled;
mod spellings;
mod terminal;

pub use class::Class;
pub use lexeme::{Content, Lexeme};
pub use part::{Context, Level, Listed, Part};
pub use spelled::{class_marked, class_named};
pub use spellings::spelling;
pub use terminal::Terminal;
