use aen_base::{Name, Span};

/// An identifier or a lifetime where it stands.
#[derive(Drop)]
pub struct Ident {
    /// Its name; that of a lifetime begins with `'`.
    pub name: Name,
    /// Where it stands.
    pub span: Span,
}
