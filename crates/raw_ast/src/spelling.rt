use aen_base::{Name, Span};

/// A name, a variable or a number as it is spelled, and where it stands. Of a name between marks it
/// is the name.
#[derive(Debug, Drop)]
pub struct Spelling {
    pub text: Name,
    pub span: Span,
}
