//! Tokens of the grammar. Written by tools/grammar.py.

/// A token of the grammar, which is a set of classes.
#[derive(Clone, Copy, Debug, PartialEq, Eq)]
pub enum Terminal {
    /// `v` and a number
    Variable,
    /// `loop` and a number
    LoopNumber,
    /// `import`
    Import,
    /// `AenPrelude`
    AenPrelude,
    /// `open`
    Open,
    /// `inductive`
    Inductive,
    /// `structure`
    Structure,
    /// `Type`
    Type,
    /// `where`
    Where,
    /// `def`
    Def,
    /// `n`
    Fuel,
    /// `Nat`
    Nat,
    /// `Result`
    Result,
    /// `match`
    Match,
    /// `with`
    With,
    /// `outOfFuel`
    OutOfFuel,
    /// `do`
    Do,
    /// `let`
    Let,
    /// `ok`
    Ok,
    /// `fail`
    Fail,
    /// `brk`
    Brk,
    /// `ret`
    Ret,
    /// `Bool`
    Bool,
    /// `Unit`
    Unit,
    /// `Exit`
    Exit,
    /// `fn`
    Fn,
    /// `cast`
    Cast,
    /// `Box`
    Box,
    /// `new`
    New,
    /// `mem`
    Mem,
    /// `replace`
    Replace,
    /// `swap`
    Swap,
    /// `back0`
    BackZero,
    /// `back1`
    BackOne,
    /// `0`
    Zero,
    /// `1`
    One,
    /// `(`
    OpenBracket,
    /// `)`
    CloseBracket,
    /// `()`
    UnitValue,
    /// `{`
    OpenBrace,
    /// `}`
    CloseBrace,
    /// `:`
    Colon,
    /// `:=`
    Becomes,
    /// `,`
    Comma,
    /// `;`
    Semicolon,
    /// `.`
    Dot,
    /// `#`
    Hash,
    /// `|`
    Bar,
    /// `=>`
    Gives,
    /// `+`
    Plus,
    /// `→`
    To,
    /// `←`
    From,
    /// `×`
    Times,
    /// The word of an integer type
    Int,
    /// An operator of bools
    BoolOperator,
    /// An operator of an integer type
    IntOperator,
    /// `back` and a number
    Back,
    /// An id
    Name,
    /// A number
    Number,
    /// `true` or `false`
    Truth,
}
