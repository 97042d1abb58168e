//! Classes of lexemes. Written by tools/grammar.py.

/// A class of lexemes. Each lexeme has one.
#[derive(Clone, Copy, Debug, PartialEq, Eq)]
pub enum Class {
    /// An id that has no class of its own
    Other,
    /// `v` and a number
    Variable,
    /// `loop` and a number
    LoopNumber,
    /// `back` and a number that is none of `0` and `1`
    BackNumber,
    /// A number that is none of `0` and `1`
    Digits,
    /// A word that no token of the grammar takes
    Excluded,
    /// `import`
    Import,
    /// `AenPrelude`
    AenPrelude,
    /// `open`
    Open,
    /// `inductive`
    Inductive,
    /// `structure`
    Structure,
    /// `Type`
    Type,
    /// `where`
    Where,
    /// `def`
    Def,
    /// `n`
    Fuel,
    /// `Nat`
    Nat,
    /// `Result`
    Result,
    /// `match`
    Match,
    /// `with`
    With,
    /// `outOfFuel`
    OutOfFuel,
    /// `do`
    Do,
    /// `let`
    Let,
    /// `true`
    True,
    /// `false`
    False,
    /// `ok`
    Ok,
    /// `fail`
    Fail,
    /// `brk`
    Brk,
    /// `ret`
    Ret,
    /// `Bool`
    Bool,
    /// `Unit`
    Unit,
    /// `Exit`
    Exit,
    /// `fn`
    Fn,
    /// `U8`
    U8,
    /// `U16`
    U16,
    /// `U32`
    U32,
    /// `U64`
    U64,
    /// `U128`
    U128,
    /// `Usize`
    Usize,
    /// `I8`
    I8,
    /// `I16`
    I16,
    /// `I32`
    I32,
    /// `I64`
    I64,
    /// `I128`
    I128,
    /// `Isize`
    Isize,
    /// `cast`
    Cast,
    /// `Box`
    Box,
    /// `new`
    New,
    /// `mem`
    Mem,
    /// `replace`
    Replace,
    /// `swap`
    Swap,
    /// `back0`
    BackZero,
    /// `back1`
    BackOne,
    /// `add`
    Add,
    /// `sub`
    Sub,
    /// `mul`
    Mul,
    /// `div`
    Div,
    /// `rem`
    Rem,
    /// `shl`
    Shl,
    /// `shr`
    Shr,
    /// `and`
    And,
    /// `or`
    Or,
    /// `xor`
    Xor,
    /// `neg`
    Neg,
    /// `not`
    Not,
    /// `eq`
    Eq,
    /// `ne`
    Ne,
    /// `lt`
    Lt,
    /// `le`
    Le,
    /// `gt`
    Gt,
    /// `ge`
    Ge,
    /// `0`
    Zero,
    /// `1`
    One,
    /// `(`
    OpenBracket,
    /// `)`
    CloseBracket,
    /// `()`
    UnitValue,
    /// `{`
    OpenBrace,
    /// `}`
    CloseBrace,
    /// `:`
    Colon,
    /// `:=`
    Becomes,
    /// `,`
    Comma,
    /// `;`
    Semicolon,
    /// `.`
    Dot,
    /// `#`
    Hash,
    /// `|`
    Bar,
    /// `=>`
    Gives,
    /// `+`
    Plus,
    /// `→`
    To,
    /// `←`
    From,
    /// `×`
    Times,
}
