//! The tokens of a source (docs/LANGUAGE.md, "Tokens"): white space and comments, identifiers and
//! their names, words, lifetimes, integers, strings and punctuation, each with its place.
#![tactic(auto)]

mod characters;
mod comments;
mod forms;
mod identifiers;
mod kinds;
mod lexer;
mod marks;
mod numbers;
mod step;
mod token;
mod words;

pub use identifiers::{ident_end, name_of};
pub use lexer::{lex, token_text};
pub use numbers::integer;
pub use token::{Base, Form, Integer, Kind, Token, Tokens};
pub use words::int_named;
