use crate::Pile;
use aen_base::{Name, Span};
use text_meaning::Mark;

/// What a token is spelled as.
#[derive(Debug, Drop)]
pub enum LexemeKind {
    /// ASCII letters, digits and `_`: a word of the language, or a name where it may be bare.
    Word(Name),
    /// A name between `«` and `»`, in normal form.
    Marked(Name),
    /// Digits, perhaps with `-` before them.
    Number(Name),
    /// Punctuation.
    Punct(Mark),
}

/// A token as it is spelled, and where it stands.
#[derive(Debug, Drop)]
pub struct Lexeme {
    pub kind: LexemeKind,
    pub span: Span,
}

/// The tokens of a text, up to the first character at which none begins, if there is one.
#[derive(Debug, Drop)]
pub struct Lexemes {
    pub list: Pile<Lexeme>,
    /// That character's place.
    pub fault: Option<Span>,
}
