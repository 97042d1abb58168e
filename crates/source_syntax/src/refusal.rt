use aen_base::{Span, Which};

/// Why the tokens of a source are refused.
#[derive(Clone, Copy, Debug, PartialEq, Eq)]
pub enum Refusal {
    /// The first excluded word, before any lexical fault.
    Unsupported(Span),
    /// The first of the limits on nesting, depth and `else`, in this order, that is passed before any
    /// lexical fault, and the limit and one.
    Limit(Which, u64),
    /// The lexical fault or the first token such that no program's tokens begin with the tokens up to
    /// it, whichever stands first, or else the empty span at the text's end.
    Syntax(Span),
}
