//! The symbols of a grammar.

/// A token of a grammar, or a part (a nonterminal), which consists of tokens.
#[derive(Clone, Copy)]
pub enum Symbol<T, N> {
    Token(T),
    Part(N),
}

/// A production: the symbols that a part may be replaced by. An empty one has none.
pub struct Production<T: 'static, N: 'static> {
    pub symbols: &'static [Symbol<T, N>],
}
