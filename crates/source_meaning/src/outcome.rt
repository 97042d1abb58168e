use aen_base::{PanicKind, Span};
use pure_ast::PValue;

/// What a call of a function comes to at a bound.
#[derive(Drop)]
pub enum Outcome {
    /// It returns this value.
    Value(PValue),
    /// It panics, for this reason.
    Panic(PanicKind),
    /// The bound was too small.
    More,
    /// It has no meaning at the expression that stands there.
    Stuck(Span),
}
