use aen_base::Span;

/// What a part was read as, and its extent: from the first byte of its first token to the last byte
/// of its last one, brackets among them; none where it has no token.
#[derive(Drop)]
pub struct Spanned<T> {
    pub value: T,
    pub extent: Option<Span>,
}
