//! The values of symbols.

/// The value of a symbol: of a token the lexeme or front that it took, of a part what was built.
#[derive(Drop)]
pub enum Item<L, V> {
    Token(L),
    Part(V),
}
