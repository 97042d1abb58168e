use crate::Kind;

/// What begins the rest of a source, and how many bytes it takes.
#[derive(Clone, Copy, Debug, PartialEq, Eq)]
pub(crate) enum Step {
    /// Nothing is left.
    End,
    /// White space or a comment.
    Gap(usize),
    /// A token.
    Token(Kind, usize),
    /// A lexical fault.
    Fault(usize),
}
