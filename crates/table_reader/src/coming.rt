//! What is to come while lexemes are read.

/// A symbol that is to come, or the mark that a production is over.
#[derive(Clone, Copy)]
pub(crate) enum Coming<T, N> {
    Token(T),
    Part(N),
    /// The production in this place, from 0, of the part.
    Over(N, usize),
}
