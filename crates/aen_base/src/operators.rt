/// Operators on two numbers that give a number; `And`, `Or` and `Xor` work on bits.
#[derive(Clone, Copy, Debug, PartialEq, Eq)]
pub enum BinOp {
    Add,
    Sub,
    Mul,
    Div,
    Rem,
    Shl,
    Shr,
    And,
    Or,
    Xor,
}

/// Comparisons of two numbers.
#[derive(Clone, Copy, Debug, PartialEq, Eq)]
pub enum CmpOp {
    Eq,
    Ne,
    Lt,
    Le,
    Gt,
    Ge,
}

/// The functions that every program may call without declaring them: `Box::new`,
/// `mem::replace` and `mem::swap`.
#[derive(Clone, Copy, Debug, PartialEq, Eq)]
pub enum Builtin {
    BoxNew,
    Replace,
    Swap,
}

/// Why a computation panics.
#[derive(Clone, Copy, Debug, PartialEq, Eq)]
pub enum PanicKind {
    /// The result isn't in its type's range, or a shift's right side isn't below the width.
    Overflow,
    /// The divisor of `/` or `%` is 0.
    DivideByZero,
    /// `panic!`, `assert!` or `unreachable!`.
    Explicit,
}
