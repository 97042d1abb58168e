use crate::Spelling;
use aen_base::Span;

/// A constructor's name: its type and its variant, or one of the two ways out of a loop, with the
/// place of its last word.
#[derive(Debug, Drop)]
pub enum Constructor {
    Of(Spelling, Spelling),
    Brk(Span),
    Ret(Span),
}

/// A definition's name: its function, `loop` and `back` with their numbers.
#[derive(Debug, Drop)]
pub struct DefinitionName {
    pub function: Spelling,
    pub turn: Option<Spelling>,
    pub back: Option<Spelling>,
}
