//! The types that every other crate shares: lists and boxes that contracts see as what they hold,
//! names, spans, numbers of things, and want of memory.
#![tactic(auto)]

mod arithmetic;
mod bits;
mod bitwise;
mod boxed;
mod comparison;
mod decimals;
mod ids;
mod int_ty;
mod limits;
mod list;
mod memory;
mod name;
mod number;
mod operators;
mod ranges;
mod span;
mod text;
mod whole;

pub use arithmetic::{checked, negate};
pub use bitwise::{cast, from_bool, invert};
pub use boxed::Boxed;
pub use comparison::compare;
pub use decimals::{decimal, decimal_u32};
pub use ids::{AbsId, DefId, FnId, LoanId, LoopId, RegionId, StmtId, SymId, TypeId, VarId};
pub use int_ty::IntTy;
pub use limits::Which;
pub use list::{List, at};
pub use memory::NoMem;
pub use name::Name;
pub use number::Num;
pub use operators::{BinOp, Builtin, CmpOp, PanicKind};
pub use ranges::num;
pub use span::Span;
pub use text::Text;
