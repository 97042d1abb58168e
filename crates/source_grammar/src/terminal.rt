//! Tokens of the grammar. Written by tools/grammar.py.

/// A token of the grammar, which is a set of classes.
#[derive(Clone, Copy, Debug, PartialEq, Eq)]
pub enum Terminal {
    /// The word of an integer type
    IntWord,
    /// A lifetime with a name
    Lifetime,
    /// An integer
    Integer,
    /// Decimal digits directly after a dot
    Digits,
    /// A string
    Text,
    /// `as`
    As,
    /// `break`
    Break,
    /// `continue`
    Continue,
    /// `else`
    Else,
    /// `enum`
    Enum,
    /// `fn`
    Fn,
    /// `if`
    If,
    /// `let`
    Let,
    /// `loop`
    Loop,
    /// `match`
    Match,
    /// `mut`
    Mut,
    /// `pub`
    Pub,
    /// `return`
    Return,
    /// `struct`
    Struct,
    /// `use`
    Use,
    /// `while`
    While,
    /// `bool`
    Bool,
    /// `Box`
    Box,
    /// `allow`
    Allow,
    /// `std`
    Std,
    /// `mem`
    Mem,
    /// `new`
    New,
    /// `assert`
    Assert,
    /// `::`
    Colons,
    /// `->`
    Arrow,
    /// `=>`
    Gives,
    /// `&&`
    AndAnd,
    /// `||`
    BarBar,
    /// `-`
    Minus,
    /// `*`
    Star,
    /// `&`
    And,
    /// `|`
    Bar,
    /// `^`
    Caret,
    /// `!`
    Not,
    /// `=`
    Equals,
    /// `<`
    Less,
    /// `>`
    Greater,
    /// `(`
    OpenBracket,
    /// `)`
    CloseBracket,
    /// `{`
    OpenBrace,
    /// `}`
    CloseBrace,
    /// `[`
    OpenSquare,
    /// `]`
    CloseSquare,
    /// `,`
    Comma,
    /// `;`
    Semicolon,
    /// `:`
    Colon,
    /// `.`
    Dot,
    /// `#`
    Hash,
    /// `_`
    Wild,
    /// Any identifier
    Identifier,
    /// An identifier that begins a path like any other, in an expression
    PathName,
    /// The same in a pattern
    PatternName,
    /// An identifier other than `mem`
    NotMem,
    /// An identifier other than `replace` and `swap`
    NotSwap,
    /// `replace` or `swap`
    SwapName,
    /// `derive` or `allow`
    AttributeName,
    /// `panic` or `unreachable`
    PanicName,
    /// `true` or `false`
    BoolLiteral,
    /// A lifetime in a type
    AnyLifetime,
    /// An assignment's operator
    AssignOp,
    /// A comparison's operator
    CompareOp,
    /// A shift's operator
    ShiftOp,
    /// The operator of a sum or difference
    SumOp,
    /// The operator of a product, quotient or remainder
    ProductOp,
    /// The end of a list of types: `>`, also as the front of a longer mark
    TypesEnd,
}
