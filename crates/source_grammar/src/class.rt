//! Classes of lexemes. Written by tools/grammar.py.

/// A class of lexemes. Each lexeme has one.
#[derive(Clone, Copy, Debug, PartialEq, Eq)]
pub enum Class {
    /// The word of an integer type
    IntWord,
    /// An identifier that has no class of its own
    Other,
    /// A lifetime with a name
    Lifetime,
    /// `'_`
    Elided,
    /// An integer
    Integer,
    /// Decimal digits directly after a dot
    Digits,
    /// A string
    Text,
    /// An excluded word, which no token of the grammar takes
    Excluded,
    /// `as`
    As,
    /// `break`
    Break,
    /// `continue`
    Continue,
    /// `else`
    Else,
    /// `enum`
    Enum,
    /// `false`
    False,
    /// `fn`
    Fn,
    /// `if`
    If,
    /// `let`
    Let,
    /// `loop`
    Loop,
    /// `match`
    Match,
    /// `mut`
    Mut,
    /// `pub`
    Pub,
    /// `return`
    Return,
    /// `struct`
    Struct,
    /// `true`
    True,
    /// `use`
    Use,
    /// `while`
    While,
    /// `bool`
    Bool,
    /// `Box`
    Box,
    /// `allow`
    Allow,
    /// `derive`
    Derive,
    /// `std`
    Std,
    /// `mem`
    Mem,
    /// `new`
    New,
    /// `replace`
    Replace,
    /// `swap`
    Swap,
    /// `panic`
    Panic,
    /// `unreachable`
    Unreachable,
    /// `assert`
    Assert,
    /// `<<=`
    ShlEquals,
    /// `>>=`
    ShrEquals,
    /// `::`
    Colons,
    /// `->`
    Arrow,
    /// `=>`
    Gives,
    /// `==`
    EqualsEquals,
    /// `!=`
    NotEquals,
    /// `<=`
    LessEquals,
    /// `>=`
    GreaterEquals,
    /// `&&`
    AndAnd,
    /// `||`
    BarBar,
    /// `<<`
    Shl,
    /// `>>`
    Shr,
    /// `+=`
    PlusEquals,
    /// `-=`
    MinusEquals,
    /// `*=`
    StarEquals,
    /// `/=`
    SlashEquals,
    /// `%=`
    PercentEquals,
    /// `&=`
    AndEquals,
    /// `|=`
    BarEquals,
    /// `^=`
    CaretEquals,
    /// `+`
    Plus,
    /// `-`
    Minus,
    /// `*`
    Star,
    /// `/`
    Slash,
    /// `%`
    Percent,
    /// `&`
    And,
    /// `|`
    Bar,
    /// `^`
    Caret,
    /// `!`
    Not,
    /// `=`
    Equals,
    /// `<`
    Less,
    /// `>`
    Greater,
    /// `(`
    OpenBracket,
    /// `)`
    CloseBracket,
    /// `{`
    OpenBrace,
    /// `}`
    CloseBrace,
    /// `[`
    OpenSquare,
    /// `]`
    CloseSquare,
    /// `,`
    Comma,
    /// `;`
    Semicolon,
    /// `:`
    Colon,
    /// `.`
    Dot,
    /// `#`
    Hash,
    /// `_`
    Wild,
}
