//! What a turn took of a lexeme.

/// What the next token took of a lexeme.
#[derive(Drop)]
pub(crate) enum Turned<L> {
    /// The lexeme can't stand here.
    Refused,
    /// The whole lexeme.
    Taken,
    /// Its front, and this is left of it.
    Left(L),
}
