//! The tokens of a printed text as they are spelled (docs/TEXT.md, "Tokens"): a bare word, a name
//! between marks, a number, punctuation, each with its place.
#![tactic(auto)]

mod classes;
mod lexeme;
mod lexer;
mod marked;
mod pile;

pub use lexeme::{Lexeme, LexemeKind, Lexemes};
pub use lexer::lex;
pub use marked::is_name;
pub use pile::Pile;
