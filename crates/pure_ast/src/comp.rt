use crate::Term;
use aen_base::{BinOp, Builtin, CmpOp, DefId, IntTy, List, RegionId};

/// Operators on bools. `Not` has one part, all others have two.
#[derive(Clone, Copy, Debug, PartialEq, Eq)]
pub enum BoolOp {
    Eq,
    Ne,
    And,
    Or,
    Xor,
    Not,
}

/// The primitives (docs/TEXT.md, "Primitives"). `Back` is a built-in's backward function for one of
/// its regions with a mutable position among the parameters: `mem::replace` at 0, `mem::swap` at 0
/// and 1.
#[derive(Clone, Copy, Debug, PartialEq, Eq)]
pub enum Primitive {
    Arith(IntTy, BinOp),
    Neg(IntTy),
    Not(IntTy),
    Compare(IntTy, CmpOp),
    Bools(BoolOp),
    /// From the first type to the second.
    Cast(IntTy, IntTy),
    CastBool(IntTy),
    Forward(Builtin),
    Back(Builtin, RegionId),
}

/// A computation: it may fail or want more fuel. A call hands its own `n` on.
#[derive(Drop)]
pub enum Comp {
    Ok(Term),
    Fail,
    Call(DefId, List<Term>),
    Prim(Primitive, List<Term>),
}
