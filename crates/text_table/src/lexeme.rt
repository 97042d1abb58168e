use crate::class::Class;
use aen_base::{Name, Span};

/// A lexeme of a text: its class, its place in bytes, and what it says: a word and a number as they
/// are spelled, of a name between marks the name; of punctuation nothing.
#[derive(Debug, Drop)]
pub struct Lexeme {
    pub class: Class,
    pub span: Span,
    pub text: Name,
}
