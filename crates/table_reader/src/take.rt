//! What a token of a grammar takes.

/// How a token of a grammar takes a lexeme.
#[derive(Drop)]
pub enum Take<L> {
    /// Not at all.
    No,
    /// The whole lexeme.
    Whole,
    /// Its front alone.
    Front {
        /// The front as a lexeme of its own.
        taken: L,
        /// What is left after it, which the next token of the grammar has to take.
        left: L,
    },
}
