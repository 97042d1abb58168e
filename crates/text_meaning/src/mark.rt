/// The punctuation of a printed text.
#[derive(Clone, Copy, Debug, PartialEq, Eq)]
pub enum Mark {
    /// `(`
    Open,
    /// `)`
    Close,
    /// `()`, one token
    Unit,
    /// `{`
    OpenBrace,
    /// `}`
    CloseBrace,
    /// `:`
    Colon,
    /// `:=`
    Becomes,
    /// `,`
    Comma,
    /// `;`
    Semicolon,
    /// `.`
    Dot,
    /// `#`
    Hash,
    /// `|`
    Bar,
    /// `=>`
    Gives,
    /// `+`
    Plus,
    /// `→`
    To,
    /// `←`
    From,
    /// `×`
    Times,
}
