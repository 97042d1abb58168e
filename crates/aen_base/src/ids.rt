//! Numbers of things, counted from 0.

/// A variable of one function: parameters first, then bindings in source order.
#[derive(Clone, Copy, Debug, PartialEq, Eq)]
pub struct VarId(pub u32);

/// A loan on one path of one function.
#[derive(Clone, Copy, Debug, PartialEq, Eq)]
pub struct LoanId(pub u32);

/// A symbol, which stands for a value that is not known.
#[derive(Clone, Copy, Debug, PartialEq, Eq)]
pub struct SymId(pub u32);

/// A region of a signature: declared lifetimes first, then elided ones in written order.
#[derive(Clone, Copy, Debug, PartialEq, Eq)]
pub struct RegionId(pub u32);

/// An abstraction, which a call or a loop leaves behind.
#[derive(Clone, Copy, Debug, PartialEq, Eq)]
pub struct AbsId(pub u32);

/// A statement of a lowered program.
#[derive(Clone, Copy, Debug, PartialEq, Eq)]
pub struct StmtId(pub u32);

/// A function of a program, in source order.
#[derive(Clone, Copy, Debug, PartialEq, Eq)]
pub struct FnId(pub u32);

/// A declared type, in source order.
#[derive(Clone, Copy, Debug, PartialEq, Eq)]
pub struct TypeId(pub u32);

/// A loop of one function, by the place of its word.
#[derive(Clone, Copy, Debug, PartialEq, Eq)]
pub struct LoopId(pub u32);

/// A definition of a printed text, in the order of the text.
#[derive(Clone, Copy, Debug, PartialEq, Eq)]
pub struct DefId(pub u32);
