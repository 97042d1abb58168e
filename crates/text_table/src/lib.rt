//! The grammar of printed texts as a table (docs/TEXT.md, "Grammar").
#![tactic(auto)]

mod class;
mod classes;
mod grammar;
mod lexeme;
mod part;
mod spelled;
mod spellings;
mod table;
mod takes;
mod terminal;

pub use class::Class;
pub use grammar::TextGrammar;
pub use lexeme::Lexeme;
pub use part::Part;
pub use spelled::class_named;
pub use spellings::spelling;
pub use terminal::Terminal;
